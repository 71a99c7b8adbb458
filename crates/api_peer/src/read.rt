//! Bytes that are one message are read.
ghost use Rattle.std.specs.Prelude.{◌≡◌, [], IfErr, IfOk, false};
ghost use Rattle.ps_http.specs.Answer.{IsMessage, requests, responses};
ghost use Rattle.ps_http.specs.declared.message.Request.{Request as IsRequest};
ghost use Rattle.ps_http.specs.declared.message.Response.{Response as IsResponse};
ghost use Rattle.api_peer.specs.Carried.{message_limits};

use crate::source::WholeSource;
use ps_http::fault::HttpFault;
use ps_http::law::law_one_answer;
use ps_http::message::{HttpLimits, MAX_HEAD, Request, Response};
use ps_http::reader::{FieldSpans, Reader};
use std::alloc::Global;

/// The most bytes of a body.
pub const MOST_BODY: u32 = 1_048_576;

fn limits() -> HttpLimits
    ensures { result ≡ message_limits }
{
    HttpLimits {
        head: MAX_HEAD,
        body: MOST_BODY,
    }
}

fn reader(alloc: Global, bytes: &[u8]) -> Result<Reader<WholeSource<'_>>, HttpFault>
    ensures reader { IfOk result (λ r. r ≡ record { source = bytes.now; held = []; refused = false }) }
    ensures fault { IfErr result (λ fault. fault ≡ HttpFault.Memory) }
{
    match Reader::new(alloc, WholeSource::new(bytes)) {
        Ok(reader) => Ok(reader),
        Err(_) => Err(HttpFault::Memory),
    }
}

/// The request that the bytes are. Where they are one, only memory may run out.
pub fn read_request(
    alloc: Global,
    fields: &mut FieldSpans,
    bytes: &[u8],
) -> Result<Request, HttpFault>
    ensures request { (r : IsRequest) → IsMessage requests message_limits bytes.now r → IfOk result (λ made. made ≡ r) }
    ensures fault { (r : IsRequest) → IsMessage requests message_limits bytes.now r → IfErr result (λ fault. fault ≡ HttpFault.Memory) }
{
    law_one_answer();
    let mut reader = reader(alloc, bytes)?;
    match reader.read_request(alloc, fields, limits()) {
        Ok(Some(request)) => Ok(request),
        Ok(None) => Err(HttpFault::EndInside(0)),
        Err(fault) => Err(fault),
    }
}

/// The response that the bytes are. Where they are one, only memory may run out.
pub fn read_response(
    alloc: Global,
    fields: &mut FieldSpans,
    bytes: &[u8],
) -> Result<Response, HttpFault>
    ensures response { (r : IsResponse) → IsMessage responses message_limits bytes.now r → IfOk result (λ made. made ≡ r) }
    ensures fault { (r : IsResponse) → IsMessage responses message_limits bytes.now r → IfErr result (λ fault. fault ≡ HttpFault.Memory) }
{
    law_one_answer();
    let mut reader = reader(alloc, bytes)?;
    match reader.read_response(alloc, fields, limits()) {
        Ok(response) => Ok(response),
        Err(fault) => Err(fault),
    }
}
