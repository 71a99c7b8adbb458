//! One message of a connection.
ghost use Rattle.std.specs.Prelude.{◌≡◌, ◌<◌, Some, None, false, MatchOption};
ghost use Rattle.ps_ports.specs.Causes.{Rose};
ghost use Rattle.ps_http.specs.Written.{response_text};
ghost use Rattle.http_connection.specs.Call.{AfterEnd, AfterFault, SentRefusal, WentOnce, taken};
ghost use Rattle.http_connection.specs.Exchange.{ServedFrom, bad_head, too_large, no_length};
ghost use Rattle.http_connection.specs.Metered.{IsFair, Used, WriteKept, seen};

use crate::end::ConnEnd;
use crate::metered::{MOST_BYTES, Metered};
use crate::reply::exchange;
use crate::service::Service;
use ps_http::fault::HttpFault;
use ps_http::message::{HttpLimits, MAX_HEAD};
use ps_http::reader::{FieldSpans, Reader};
use ps_ports::all::write_all;
use ps_ports::sink::Sink;
use ps_ports::stream::Stream;
use std::alloc::Global;

/// The longest body of a request.
const MOST_BODY: u32 = 1_048_576;

/// The end where a read is due and no more bytes may be read, whatever the read would give.
const SPENT: ConnEnd = ConnEnd::Spent(MOST_BYTES as u64);

fn bad_head() -> &'static [u8]
    ensures { result.now ≡ response_text bad_head }
{
    b"HTTP/1.1 400 Bad Request\r\nContent-Type: application/json\r\nContent-Length: 20\r\nConnection: close\r\n\r\n{\"error\":\"bad head\"}"
}

fn too_large() -> &'static [u8]
    ensures { result.now ≡ response_text too_large }
{
    b"HTTP/1.1 413 Payload Too Large\r\nContent-Type: application/json\r\nContent-Length: 21\r\nConnection: close\r\n\r\n{\"error\":\"too large\"}"
}

fn no_length() -> &'static [u8]
    ensures { result.now ≡ response_text no_length }
{
    b"HTTP/1.1 411 Length Required\r\nContent-Type: application/json\r\nContent-Length: 27\r\nConnection: close\r\n\r\n{\"error\":\"length required\"}"
}

/// Writes a reply with this status, which closes the connection.
fn put_refusal<K: Sink>(sink: &mut K, bytes: &[u8], status: u16) -> ConnEnd
    ensures sent { SentRefusal status result (K.written sink.old) (K.written sink.new) bytes.now }
    ensures fault { result ≡ ConnEnd.WriteFault → Rose (K.write_faults sink.old) (K.write_faults sink.new) }
    ensures kept { K.sink_kept sink.old sink.new }
{
    match write_all(sink, bytes) {
        Ok(()) => ConnEnd::Refused(status),
        Err(_) => ConnEnd::WriteFault,
    }
}

/// Ends the connection between two messages, where the input has ended.
fn close<M: Stream>(source: &Metered<'_, M>) -> ConnEnd
    ensures { AfterEnd source.now.room result }
{
    if source.is_spent() {
        return SPENT;
    }
    ConnEnd::Closed
}

/// Ends the connection after a fault of a read, with a reply where a head was refused.
fn refuse<M: Stream>(source: &mut Metered<'_, M>, fault: HttpFault) -> ConnEnd
    requires { fault ≡ HttpFault.AfterRefusal → ⊥ }
    ensures ended { AfterFault fault source.new.room result (M.written source.old.stream.now) (M.written source.new.stream.now) }
    ensures fault { result ≡ ConnEnd.WriteFault → Rose (M.write_faults source.old.stream.now) (M.write_faults source.new.stream.now) }
    ensures own { result ≡ ConnEnd.ReadFault → 0 < source.new.room }
    ensures name { source.new.stream.ghost_name ≡ source.old.stream.ghost_name }
    ensures kept { WriteKept (seen M.left M.written M.read_faults M.write_faults source.old) (seen M.left M.written M.read_faults M.write_faults source.new) }
{
    match fault {
        HttpFault::BadHead => put_refusal(source, bad_head(), 400),
        HttpFault::TooLarge => put_refusal(source, too_large(), 413),
        HttpFault::NoLength => put_refusal(source, no_length(), 411),
        HttpFault::EndInside(_) | HttpFault::ReadFault if source.is_spent() => SPENT,
        HttpFault::EndInside(count) => ConnEnd::EndInside(count),
        HttpFault::ReadFault => ConnEnd::ReadFault,
        HttpFault::AfterRefusal => unreachable!(),
        HttpFault::Memory => ConnEnd::Memory,
    }
}

/// Reads one message, and answers it. `None` where the connection stays open.
pub fn serve_turn<V: Service<T>, T, M: Stream>(
    alloc: Global,
    fields: &mut FieldSpans,
    service: &V,
    token: &mut T,
    reader: &mut Reader<Metered<'_, M>>,
    address: &str,
) -> Option<ConnEnd>
    requires fits { V.fits service.now token.old }
    requires fresh { reader.old.refused ≡ false }
    requires fair { IsFair (seen M.left M.written M.read_faults M.write_faults reader.old.source) }
    ensures fits { V.fits service.now token.new }
    ensures turned { MatchOption result
        (WentOnce (V.answers service.now) address.now token.old token.new reader.old.held reader.new.held
        (M.left reader.old.source.stream.now) (M.left reader.new.source.stream.now)
        (M.written reader.old.source.stream.now) (M.written reader.new.source.stream.now))
        (ServedFrom (V.answers service.now) address.now token.old token.new reader.old.held
        (M.left reader.old.source.stream.now) (M.left reader.new.source.stream.now)
        (M.written reader.old.source.stream.now) (M.written reader.new.source.stream.now) (taken reader.new.source.room)) }
    ensures fresh { result ≡ None → reader.new.refused ≡ false }
    ensures read_fault { result ≡ Some ConnEnd.ReadFault → Rose (M.read_faults reader.old.source.stream.now) (M.read_faults reader.new.source.stream.now) }
    ensures write_fault { result ≡ Some ConnEnd.WriteFault → Rose (M.write_faults reader.old.source.stream.now) (M.write_faults reader.new.source.stream.now) }
    ensures name { reader.new.source.stream.ghost_name ≡ reader.old.source.stream.ghost_name }
    ensures used { Used (seen M.left M.written M.read_faults M.write_faults reader.old.source) (seen M.left M.written M.read_faults M.write_faults reader.new.source) }
{
    let limits = HttpLimits {
        head: MAX_HEAD,
        body: MOST_BODY,
    };
    match reader.read_request(alloc, fields, limits) {
        Ok(Some(request)) => exchange(alloc, service, token, reader.source(), &request, address),
        Ok(None) => Some(close(reader.source())),
        Err(fault) => Some(refuse(reader.source(), fault)),
    }
}
