//! Replies, and what comes behind them.
ghost use Rattle.std.specs.Prelude.{◌≡◌, Some};
ghost use Rattle.ps_ports.specs.Causes.{Rose};
ghost use Rattle.http_connection.specs.Call.{Sent, SentLast, AfterAnswer, Exchanged};

use crate::answer::Answer;
use crate::end::ConnEnd;
use crate::service::Service;
use ps_http::message::{Request, Response};
use ps_http::written::{fixed_reply, response_bytes};
use ps_ports::all::write_all;
use ps_ports::sink::Sink;
use std::alloc::Global;

/// Writes a reply, which closes the connection or doesn't.
fn put_reply<K: Sink>(sink: &mut K, bytes: &[u8], closing: bool) -> Option<ConnEnd>
    ensures sent { Sent result closing (K.written sink.old) (K.written sink.new) bytes.now }
    ensures fault { result ≡ Some ConnEnd.WriteFault → Rose (K.write_faults sink.old) (K.write_faults sink.new) }
    ensures kept { K.sink_kept sink.old sink.new }
{
    match write_all(sink, bytes) {
        Ok(()) => {
            if closing {
                return Some(ConnEnd::Closed);
            }
            None
        }
        Err(_) => Some(ConnEnd::WriteFault),
    }
}

/// Writes the reply where memory runs out.
fn put_no_memory<K: Sink>(sink: &mut K) -> ConnEnd
    ensures sent { SentLast result (K.written sink.old) (K.written sink.new) }
    ensures fault { result ≡ ConnEnd.WriteFault → Rose (K.write_faults sink.old) (K.write_faults sink.new) }
    ensures kept { K.sink_kept sink.old sink.new }
{
    match write_all(sink, fixed_reply(500, true)) {
        Ok(()) => ConnEnd::Memory,
        Err(_) => ConnEnd::WriteFault,
    }
}

/// Writes this response, which closes the connection if that is asked.
fn put_response<K: Sink>(
    alloc: Global,
    sink: &mut K,
    response: Response,
    asked: bool,
) -> Option<ConnEnd>
    ensures sent { AfterAnswer asked (Answer.Response response) result (K.written sink.old) (K.written sink.new) }
    ensures fault { result ≡ Some ConnEnd.WriteFault → Rose (K.write_faults sink.old) (K.write_faults sink.new) }
    ensures kept { K.sink_kept sink.old sink.new }
{
    let mut response = response;
    response.close = asked;
    match response_bytes(alloc, &response) {
        Ok(bytes) => put_reply(sink, bytes.as_slice(), asked),
        Err(_) => Some(put_no_memory(sink)),
    }
}

/// Writes the reply of an answer.
fn put_answer<K: Sink>(alloc: Global, sink: &mut K, answer: Answer, asked: bool) -> Option<ConnEnd>
    ensures sent { AfterAnswer asked answer result (K.written sink.old) (K.written sink.new) }
    ensures fault { result ≡ Some ConnEnd.WriteFault → Rose (K.write_faults sink.old) (K.write_faults sink.new) }
    ensures kept { K.sink_kept sink.old sink.new }
{
    match answer {
        Answer::Response(response) => put_response(alloc, sink, response, asked),
        Answer::Failed => put_reply(sink, fixed_reply(503, asked), asked),
        Answer::Memory => Some(put_no_memory(sink)),
    }
}

/// Asks the service, and writes the reply.
pub fn exchange<V: Service<T>, T, K: Sink>(
    alloc: Global,
    service: &V,
    token: &mut T,
    sink: &mut K,
    request: &Request,
    address: &str,
) -> Option<ConnEnd>
    requires { V.fits service.now token.old }
    ensures fits { V.fits service.now token.new }
    ensures done { Exchanged (V.answers service.now) address.now token.old token.new request.now result (K.written sink.old) (K.written sink.new) }
    ensures fault { result ≡ Some ConnEnd.WriteFault → Rose (K.write_faults sink.old) (K.write_faults sink.new) }
    ensures kept { K.sink_kept sink.old sink.new }
{
    let answer = service.answer(token, request, address);
    put_answer(alloc, sink, answer, request.close)
}
