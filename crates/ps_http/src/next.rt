//! Reading the next message from a source.
ghost use Rattle.std.specs.Prelude.{◌≡◌, ◌≤◌, ◌<◌, [], length, IfOk, IfSome, IfErr, IsErrOf, Ok, None};
ghost use Rattle.std.specs.Io.KnownBytes.{prepend_known, IsAtEnd};
ghost use Rattle.ps_ports.specs.Causes.{Rose};
ghost use Rattle.ps_http.specs.Answer.{IsBegun, requests, responses, TakesMessage, WasAtEnd, WasEnough};
ghost use Rattle.ps_http.specs.Next.{HasHead, FaultAt};

use crate::fault::HttpFault;
use crate::head::{Headed, request_head, response_head};
use crate::held::{Held, collect, read_body};
use crate::message::{HttpLimits, Request, Response};
use httparse::spans::HeaderSpan;
use ps_ports::source::Source;
use ps_time::items::Items;
use std::alloc::Global;

fn next_request_head<S: Source>(
    alloc: Global,
    source: &mut S,
    held: &mut Held,
    spans: &mut [HeaderSpan],
    limits: HttpLimits,
) -> Result<Option<Headed<Request>>, HttpFault>
    requires some { 0 < limits.head }
    requires fits { limits.head ≤ 16384 }
    requires room { length spans.old ≡ 5461 }
    ensures head { IfOk result (λ o. IfSome o (λ h. HasHead requests limits h.message h.size h.length held.old held.new (S.left source.old) (S.left source.new))) }
    ensures end { result ≡ Ok None → (held.old ≡ []) × (held.new ≡ []) × IsAtEnd (S.left source.old) × IsAtEnd (S.left source.new) }
    ensures some { IfOk result (λ o. IfSome o (λ _. IfSome (prepend_known held.old (S.left source.old)) (λ input. 0 < length input))) }
    ensures err { IfErr result (λ fault. FaultAt requests limits held.old held.new fault (S.left source.old) (S.left source.new)) }
    ensures begun { IfErr result (λ fault. IfSome (prepend_known held.old (S.left source.old)) (λ input. IsBegun input fault)) }
    ensures fault { IsErrOf result HttpFault.ReadFault → Rose (S.read_faults source.old) (S.read_faults source.new) }
    ensures later { S.read_faults source.old ≤ S.read_faults source.new }
    ensures kept { S.kept source.old source.new }
{
    let most = limits.head as usize;
    let Ok(()) = collect(source, held, most) else {
        return Err(HttpFault::ReadFault);
    };
    let bytes = held.as_slice();
    if bytes.is_empty() {
        return Ok(None);
    }
    match request_head(alloc, &bytes[..bytes.len().min(most)], spans, limits) {
        Ok(head) => Ok(Some(head)),
        Err(fault) => Err(fault),
    }
}

fn with_request_body(request: Request, body: Vec<u8>) -> Request
    ensures { result ≡ record request { body = body.items } }
{
    let mut request = request;
    request.body = Items::from_vec(body);
    request
}

/// Reads the next request, which `spans` has room for.
pub fn next_request<S: Source>(
    alloc: Global,
    source: &mut S,
    held: &mut Held,
    spans: &mut [HeaderSpan],
    limits: HttpLimits,
) -> Result<Option<Request>, HttpFault>
    requires some { 0 < limits.head }
    requires fits { limits.head ≤ 16384 }
    requires room { length spans.old ≡ 5461 }
    ensures message { IfOk result (λ o. IfSome o (λ r. TakesMessage requests limits r (prepend_known held.old (S.left source.old)) (prepend_known held.new (S.left source.new)))) }
    ensures body { IfOk result (λ o. IfSome o (λ r. length r.body ≤ limits.body)) }
    ensures enough { IfOk result (λ o. IfSome o (λ _. WasEnough requests limits held.old held.new (S.left source.old) (S.left source.new))) }
    ensures end { result ≡ Ok None → WasAtEnd (prepend_known held.old (S.left source.old)) (prepend_known held.new (S.left source.new)) }
    ensures err { IfErr result (λ fault. FaultAt requests limits held.old held.new fault (S.left source.old) (S.left source.new)) }
    ensures begun { IfErr result (λ fault. IfSome (prepend_known held.old (S.left source.old)) (λ input. IsBegun input fault)) }
    ensures fault { IsErrOf result HttpFault.ReadFault → Rose (S.read_faults source.old) (S.read_faults source.new) }
    ensures later { S.read_faults source.old ≤ S.read_faults source.new }
    ensures kept { S.kept source.old source.new }
{
    let head = match next_request_head(alloc, source, held, spans, limits) {
        Ok(Some(head)) => head,
        Ok(None) => return Ok(None),
        Err(fault) => return Err(fault),
    };
    let Headed {
        message,
        size,
        length,
    } = head;
    match read_body(alloc, source, held, size, length) {
        Ok(body) => Ok(Some(with_request_body(message, body))),
        Err(fault) => Err(fault),
    }
}

fn next_response_head<S: Source>(
    alloc: Global,
    source: &mut S,
    held: &mut Held,
    spans: &mut [HeaderSpan],
    limits: HttpLimits,
) -> Result<Headed<Response>, HttpFault>
    requires fits { limits.head ≤ 16384 }
    requires room { length spans.old ≡ 5461 }
    ensures head { IfOk result (λ h. HasHead responses limits h.message h.size h.length held.old held.new (S.left source.old) (S.left source.new)) }
    ensures err { IfErr result (λ fault. FaultAt responses limits held.old held.new fault (S.left source.old) (S.left source.new)) }
    ensures fault { IsErrOf result HttpFault.ReadFault → Rose (S.read_faults source.old) (S.read_faults source.new) }
    ensures later { S.read_faults source.old ≤ S.read_faults source.new }
    ensures kept { S.kept source.old source.new }
{
    let most = limits.head as usize;
    let Ok(()) = collect(source, held, most) else {
        return Err(HttpFault::ReadFault);
    };
    let bytes = held.as_slice();
    match response_head(alloc, &bytes[..bytes.len().min(most)], spans, limits) {
        Ok(head) => Ok(head),
        Err(fault) => Err(fault),
    }
}

/// The response with this body.
pub fn with_response_body(response: Response, body: Vec<u8>) -> Response
    ensures { result ≡ record response { body = body.items } }
{
    let mut response = response;
    response.body = Items::from_vec(body);
    response
}

/// Reads the next response, which `spans` has room for.
pub fn next_response<S: Source>(
    alloc: Global,
    source: &mut S,
    held: &mut Held,
    spans: &mut [HeaderSpan],
    limits: HttpLimits,
) -> Result<Response, HttpFault>
    requires fits { limits.head ≤ 16384 }
    requires room { length spans.old ≡ 5461 }
    ensures message { IfOk result (λ r. TakesMessage responses limits r (prepend_known held.old (S.left source.old)) (prepend_known held.new (S.left source.new))) }
    ensures body { IfOk result (λ r. length r.body ≤ limits.body) }
    ensures enough { IfOk result (λ _. WasEnough responses limits held.old held.new (S.left source.old) (S.left source.new)) }
    ensures err { IfErr result (λ fault. FaultAt responses limits held.old held.new fault (S.left source.old) (S.left source.new)) }
    ensures fault { IsErrOf result HttpFault.ReadFault → Rose (S.read_faults source.old) (S.read_faults source.new) }
    ensures later { S.read_faults source.old ≤ S.read_faults source.new }
    ensures kept { S.kept source.old source.new }
{
    let head = match next_response_head(alloc, source, held, spans, limits) {
        Ok(head) => head,
        Err(fault) => return Err(fault),
    };
    let Headed {
        message,
        size,
        length,
    } = head;
    match read_body(alloc, source, held, size, length) {
        Ok(body) => Ok(with_response_body(message, body)),
        Err(fault) => Err(fault),
    }
}
