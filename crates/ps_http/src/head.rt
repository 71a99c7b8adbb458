//! Reading the head at the front of bytes.
ghost use Rattle.std.specs.Prelude.{◌≡◌, ◌≤◌, ◌*◌, ◌+◌, length, All, IfOk, IfErr, IsUtf8, Some, Ok, codes};
ghost use Rattle.std.specs.List.{before_first};
ghost use Rattle.std.specs.Option.{option_map};
ghost use Rattle.httparse.specs.Spans.{IsHeaderWithin, IsRequestOf, IsRequestWithin, IsResponseOf, IsResponseWithin};
ghost use Rattle.ps_http.specs.Answer.{requests, responses};
ghost use Rattle.ps_http.specs.Fields.{fields_in, values_of, cuts_at, behind};
ghost use Rattle.ps_http.specs.Head.{IsHeaded, IsMessageOf, IsRefusedOr, HeadGives, HeadFault, unfinished};
ghost use Rattle.ps_http.specs.Message.{body_length, fits_request, wants_length, allowed};

use crate::fault::HttpFault;
use crate::fields::{are_peers, asks_close, count_named, first_named, peer, said_length};
use crate::find::{Found, find_request, find_response};
use crate::message::{HttpLimits, MAX_FIELDS, Request, Response};
use httparse::spans::{HeaderSpan, RequestSpans, ResponseSpans};
use ps_time::items::Items;
use ps_time::memory::Memory;
use ps_time::text::Text;
use std::alloc::Global;
use std::str;

/// A message whose body is still to come: its head has `size` bytes, and its body `length`.
#[derive(Drop)]
pub struct Headed<M> {
    pub message: M,
    pub size: usize,
    pub length: usize,
}

/// The length of the body, or the first refusal. `fits` tells that what stands before the fields is
/// right, and `wanted` that there has to be a length.
fn body_length(
    limits: HttpLimits,
    fits: bool,
    wanted: bool,
    bytes: &[u8],
    spans: &[HeaderSpan],
) -> Result<usize, HttpFault>
    requires { All (IsHeaderWithin (length bytes.now)) spans.now }
    ensures { result ≡ body_length limits fits wanted (fields_in bytes.now spans.now) }
{
    if !fits || !are_peers(bytes, spans) {
        return Err(HttpFault::BadHead);
    }
    let Some(said) = said_length(bytes, spans) else {
        return Err(HttpFault::BadHead);
    };
    let length = said.unwrap_or(0);
    if MAX_FIELDS < spans.len() || u64::from(limits.body) < length {
        return Err(HttpFault::TooLarge);
    }
    if 0 < count_named(bytes, spans, b"transfer-encoding") || (wanted && said.is_none()) {
        return Err(HttpFault::NoLength);
    }
    Ok(length as usize)
}

/// The path and the query of a target.
fn split_target(target: &str) -> (&str, Option<&str>)
    ensures path { result.0.now ≡ before_first (cuts_at 63) target.now }
    ensures query { option_map (λ q. q.now) result.1 ≡ behind 63 target.now }
{
    match target.split_once('?') {
        Some((path, query)) => (path, Some(query)),
        None => (target, None),
    }
}

fn text(alloc: Global, bytes: &[u8]) -> Result<Text, Memory>
    requires { IsUtf8 bytes.now }
    ensures { IfOk result (λ t. t ≡ bytes.now) }
{
    match str::from_utf8(bytes) {
        Ok(text) => Text::new(alloc, text),
        Err(_) => unreachable!(),
    }
}

fn query_text(alloc: Global, query: Option<&str>) -> Result<Option<Text>, Memory>
    ensures { IfOk result (λ t. t ≡ option_map (λ q. q.now) query.entry) }
{
    match query {
        Some(query) => {
            let query = Text::new(alloc, query)?;
            Ok(Some(query))
        }
        None => Ok(None),
    }
}

/// A request without its body.
fn request_without_body(
    alloc: Global,
    bytes: &[u8],
    spans: &[HeaderSpan],
    head: RequestSpans,
) -> Result<Request, Memory>
    requires within { IsRequestWithin bytes.now spans.now head }
    requires whole { IsRequestOf bytes.now spans.now head }
    requires all { head.headers ≡ length spans.now }
    ensures { IfOk result (λ request. IsMessageOf requests bytes.now request) }
{
    let method = text(alloc, head.method.of(bytes))?;
    let Ok(target) = str::from_utf8(head.path.of(bytes)) else {
        unreachable!()
    };
    let (path, query) = split_target(target);
    let path = Text::new(alloc, path)?;
    let query = query_text(alloc, query)?;
    let peer = peer(alloc, bytes, spans)?;
    let close = asks_close(head.version, bytes, spans);
    let body = Items::new(alloc);
    Ok(Request {
        method,
        path,
        query,
        peer,
        close,
        body,
    })
}

// A request of 1.1 has one Host field, and a target begins with `/`.
fn fits_request(minor: u8, target: &[u8], bytes: &[u8], spans: &[HeaderSpan]) -> bool
    requires { All (IsHeaderWithin (length bytes.now)) spans.now }
    ensures { result ≡ fits_request minor target.now (fields_in bytes.now spans.now) }
{
    if minor != 0 && count_named(bytes, spans, b"host") != 1 {
        return false;
    }
    matches!(target, [b'/', ..])
}

/// Whether a request with this method has a length.
pub fn wants_length(method: &[u8]) -> bool
    ensures { result ≡ wants_length method.now }
{
    method == b"POST".as_slice() || method == b"PUT".as_slice()
}

fn request_length(
    bytes: &[u8],
    spans: &[HeaderSpan],
    head: RequestSpans,
    limits: HttpLimits,
) -> Result<usize, HttpFault>
    requires within { IsRequestWithin bytes.now spans.now head }
    requires whole { IsRequestOf bytes.now spans.now head }
    requires all { head.headers ≡ length spans.now }
    ensures { HeadGives requests limits bytes.now head.len result }
{
    let fits = fits_request(head.version, head.path.of(bytes), bytes, spans);
    let wanted = wants_length(head.method.of(bytes));
    body_length(limits, fits, wanted, bytes, spans)
}

fn whole_request(
    alloc: Global,
    bytes: &[u8],
    spans: &[HeaderSpan],
    head: RequestSpans,
    limits: HttpLimits,
) -> Result<Headed<Request>, HttpFault>
    requires within { IsRequestWithin bytes.now spans.now head }
    requires whole { IsRequestOf bytes.now spans.now head }
    requires all { head.headers ≡ length spans.now }
    ensures ok { IfOk result (λ r. IsHeaded requests limits bytes.now r.message r.size r.length) }
    ensures err { IfErr result (IsRefusedOr requests limits bytes.now) }
{
    let length = match request_length(bytes, spans, head, limits) {
        Ok(length) => length,
        Err(fault) => return Err(fault),
    };
    match request_without_body(alloc, bytes, spans, head) {
        Ok(message) => Ok(Headed {
            message,
            size: head.len,
            length,
        }),
        Err(Memory) => Err(HttpFault::Memory),
    }
}

/// The head of a request at the front of an input. `bytes` are all that the input has, or as many
/// as a head may have.
pub fn request_head(
    alloc: Global,
    bytes: &[u8],
    spans: &mut [HeaderSpan],
    limits: HttpLimits,
) -> Result<Headed<Request>, HttpFault>
    requires { length bytes.now ≤ 3 * length spans.old + 2 }
    ensures ok { IfOk result (λ r. IsHeaded requests limits bytes.now r.message r.size r.length) }
    ensures err { IfErr result (HeadFault requests limits bytes.now) }
{
    match find_request(bytes, spans) {
        Found::Whole(head) => whole_request(alloc, bytes, &spans[..head.headers], head, limits),
        Found::Open => Err(unfinished(bytes.len(), limits)),
        Found::Never => Err(HttpFault::BadHead),
    }
}

fn allowed(alloc: Global, bytes: &[u8], spans: &[HeaderSpan]) -> Result<Option<Text>, Memory>
    requires { All (IsHeaderWithin (length bytes.now)) spans.now }
    ensures { IfOk result (λ t. t ≡ allowed (values_of (codes "allow") (fields_in bytes.now spans.now))) }
{
    let Some(value) = first_named(bytes, spans, b"allow") else {
        return Ok(None);
    };
    match str::from_utf8(value) {
        Ok(text) => {
            let text = Text::new(alloc, text)?;
            Ok(Some(text))
        }
        Err(_) => Ok(None),
    }
}

/// A response without its body.
fn response_without_body(
    alloc: Global,
    bytes: &[u8],
    spans: &[HeaderSpan],
    head: ResponseSpans,
) -> Result<Response, Memory>
    requires within { IsResponseWithin bytes.now spans.now head }
    requires whole { IsResponseOf bytes.now spans.now head }
    requires all { head.headers ≡ length spans.now }
    ensures { IfOk result (λ response. IsMessageOf responses bytes.now response) }
{
    let allow = allowed(alloc, bytes, spans)?;
    let close = asks_close(head.version, bytes, spans);
    let body = Items::new(alloc);
    Ok(Response {
        status: head.code,
        allow,
        close,
        body,
    })
}

fn response_length(
    bytes: &[u8],
    spans: &[HeaderSpan],
    head: ResponseSpans,
    limits: HttpLimits,
) -> Result<usize, HttpFault>
    requires within { IsResponseWithin bytes.now spans.now head }
    requires whole { IsResponseOf bytes.now spans.now head }
    requires all { head.headers ≡ length spans.now }
    ensures { HeadGives responses limits bytes.now head.len result }
{
    body_length(limits, true, true, bytes, spans)
}

fn whole_response(
    alloc: Global,
    bytes: &[u8],
    spans: &[HeaderSpan],
    head: ResponseSpans,
    limits: HttpLimits,
) -> Result<Headed<Response>, HttpFault>
    requires within { IsResponseWithin bytes.now spans.now head }
    requires whole { IsResponseOf bytes.now spans.now head }
    requires all { head.headers ≡ length spans.now }
    ensures ok { IfOk result (λ r. IsHeaded responses limits bytes.now r.message r.size r.length) }
    ensures err { IfErr result (IsRefusedOr responses limits bytes.now) }
{
    let length = match response_length(bytes, spans, head, limits) {
        Ok(length) => length,
        Err(fault) => return Err(fault),
    };
    match response_without_body(alloc, bytes, spans, head) {
        Ok(message) => Ok(Headed {
            message,
            size: head.len,
            length,
        }),
        Err(Memory) => Err(HttpFault::Memory),
    }
}

/// The head of a response, with its length and what its fields say, or why it is refused.
pub fn response_head(
    alloc: Global,
    bytes: &[u8],
    spans: &mut [HeaderSpan],
    limits: HttpLimits,
) -> Result<Headed<Response>, HttpFault>
    requires { length bytes.now ≤ 3 * length spans.old + 2 }
    ensures ok { IfOk result (λ r. IsHeaded responses limits bytes.now r.message r.size r.length) }
    ensures err { IfErr result (HeadFault responses limits bytes.now) }
{
    match find_response(bytes, spans) {
        Found::Whole(head) => whole_response(alloc, bytes, &spans[..head.headers], head, limits),
        Found::Open => Err(unfinished(bytes.len(), limits)),
        Found::Never => Err(HttpFault::BadHead),
    }
}

// The fault of a head that has no end.
fn unfinished(count: usize, limits: HttpLimits) -> HttpFault
    ensures { result ≡ unfinished limits count }
{
    if limits.head as usize <= count {
        return HttpFault::TooLarge;
    }
    HttpFault::EndInside(count as u64)
}
