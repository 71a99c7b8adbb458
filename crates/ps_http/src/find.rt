//! Finding the head at the front of bytes.
ghost use Rattle.std.specs.Prelude.{◌≤◌, ◌*◌, ◌+◌, length};
ghost use Rattle.httparse.specs.Grammar.{NeverHasRequest};
ghost use Rattle.httparse.specs.Spans.{IsRequestOf, IsRequestWithin, IsResponseOf, IsResponseWithin};
ghost use Rattle.ps_http.specs.Answer.{requests, responses};
ghost use Rattle.ps_http.specs.Found.{IfWhole, OnOpen, OnNever};

use crate::target::ends_in_target;
use httparse::spans::{HeaderSpan, RequestSpans, ResponseSpans, parse_request, parse_response};
use httparse::{Error, Status};

/// What stands at the front of bytes.
#[derive(Drop)]
pub enum Found<T> {
    /// A whole head.
    Whole(T),
    /// No head yet, but bytes can follow that make one.
    Open,
    /// No head, whatever follows.
    Never,
}

/// Finds the head of a request. There is a place for each three bytes, so no head has too many
/// fields.
pub fn find_request(bytes: &[u8], spans: &mut [HeaderSpan]) -> Found<RequestSpans>
    requires { length bytes.now ≤ 3 * length spans.old + 2 }
    ensures whole { IfWhole result (λ head. IsRequestOf bytes.now spans.new head × IsRequestWithin bytes.now spans.new head) }
    ensures unfinished { OnOpen result (requests.Open bytes.now) }
    ensures never { OnNever result (requests.Never bytes.now) }
{
    if ends_in_target(bytes) {
        return Found::Open;
    }
    parsed_request(bytes, spans)
}

fn parsed_request(bytes: &[u8], spans: &mut [HeaderSpan]) -> Found<RequestSpans>
    requires { length bytes.now ≤ 3 * length spans.old + 2 }
    ensures whole { IfWhole result (λ head. IsRequestOf bytes.now spans.new head × IsRequestWithin bytes.now spans.new head) }
    ensures unfinished { OnOpen result (requests.Open bytes.now) }
    ensures never { OnNever result (NeverHasRequest bytes.now) }
{
    match parse_request(bytes, spans) {
        Ok(Status::Complete(head)) => Found::Whole(head),
        Ok(Status::Partial) => Found::Open,
        Err(Error::TooManyHeaders) => unreachable!(),
        Err(_) => Found::Never,
    }
}

/// Finds the head of a response.
pub fn find_response(bytes: &[u8], spans: &mut [HeaderSpan]) -> Found<ResponseSpans>
    requires { length bytes.now ≤ 3 * length spans.old + 2 }
    ensures whole { IfWhole result (λ head. IsResponseOf bytes.now spans.new head × IsResponseWithin bytes.now spans.new head) }
    ensures unfinished { OnOpen result (responses.Open bytes.now) }
    ensures never { OnNever result (responses.Never bytes.now) }
{
    match parse_response(bytes, spans) {
        Ok(Status::Complete(head)) => Found::Whole(head),
        Ok(Status::Partial) => Found::Open,
        Err(Error::TooManyHeaders) => unreachable!(),
        Err(_) => Found::Never,
    }
}
