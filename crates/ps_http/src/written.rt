//! The bytes of messages.
ghost use Rattle.std.specs.Prelude.{◌≡◌, ◌⊎◌, ◌++◌, [], OnOk, IfOk};
ghost use Rattle.std.specs.Fmt.{decimal};
ghost use Rattle.std.specs.Option.{unwrap_or};
ghost use Rattle.std.specs.String.{string_bytes};
ghost use Rattle.http.specs.StatusCode.{reason_phrase};
ghost use Rattle.ps_http.specs.Written.{field_text, query_text, peer_text, request_line, request_length_text, request_text, length_text, status_line, allow_text, response_close_text, response_text, fault_response, request_fields_text, response_fields_text, phrase_text, type_text};

use crate::head::wants_length;
use crate::message::{PeerMark, Request, Response};
use http::StatusCode;
use ps_time::memory::Memory;
use ps_time::text::Text;
use std::alloc::Global;

/// Appends the bytes.
pub(crate) fn put(out: &mut Vec<u8>, bytes: &[u8]) -> Result<(), Memory>
    ensures { OnOk result (out.new.items ≡ out.old.items ++ bytes.now) }
{
    out.extend_from_slice(bytes)?;
    Ok(())
}

fn put_field(out: &mut Vec<u8>, name: &[u8], value: &[u8]) -> Result<(), Memory>
    ensures { OnOk result (out.new.items ≡ out.old.items ++ field_text name.now value.now) }
{
    put(out, name)?;
    put(out, b": ")?;
    put(out, value)?;
    put(out, b"\r\n")
}

fn put_query(out: &mut Vec<u8>, query: &Option<Text>) -> Result<(), Memory>
    ensures { OnOk result (out.new.items ≡ out.old.items ++ query_text query.now) }
{
    match query {
        Some(query) => {
            put(out, b"?")?;
            put(out, query.as_str().as_bytes())
        }
        None => Ok(()),
    }
}

fn put_request_line(out: &mut Vec<u8>, request: &Request) -> Result<(), Memory>
    ensures { OnOk result (out.new.items ≡ out.old.items ++ request_line request.now) }
{
    put(out, request.method.as_str().as_bytes())?;
    put(out, b" ")?;
    put(out, request.path.as_str().as_bytes())?;
    put_query(out, &request.query)?;
    put(out, b" HTTP/1.1\r\n")
}

fn decimal_text(alloc: Global, number: u64) -> Result<String, Memory>
    ensures { IfOk result (λ t. string_bytes t ≡ decimal number) }
{
    Ok(format!(in alloc; "{number}")?)
}

#[tactic(auto, unfolding(crate::specs::Written::length_text))]
fn put_length(alloc: Global, out: &mut Vec<u8>, body: &[u8]) -> Result<(), Memory>
    ensures { OnOk result (out.new.items ≡ out.old.items ++ length_text body.now) }
{
    let length = decimal_text(alloc, body.len() as u64)?;
    put_field(out, b"Content-Length", length.as_bytes())
}

fn put_peer(alloc: Global, out: &mut Vec<u8>, peer: &Option<PeerMark>) -> Result<(), Memory>
    ensures { OnOk result (out.new.items ≡ out.old.items ++ peer_text peer.now) }
{
    match peer {
        Some(mark) => {
            let number = mark.number;
            let key = mark.key.as_str();
            let text = format!(in alloc; "{number} {key}")?;
            put_field(out, b"ps-peer", text.as_bytes())
        }
        None => Ok(()),
    }
}

fn put_request_length(alloc: Global, out: &mut Vec<u8>, request: &Request) -> Result<(), Memory>
    ensures { OnOk result (out.new.items ≡ out.old.items ++ request_length_text request.now) }
{
    if wants_length(request.method.as_str().as_bytes()) {
        return put_length(alloc, out, request.body.as_slice());
    }
    Ok(())
}

fn put_request_fields(
    alloc: Global,
    out: &mut Vec<u8>,
    request: &Request,
    authority: &str,
) -> Result<(), Memory>
    ensures { OnOk result (out.new.items ≡ out.old.items ++ request_fields_text request.now authority.now) }
{
    put_field(out, b"Host", authority.as_bytes())?;
    put_peer(alloc, out, &request.peer)?;
    put_request_length(alloc, out, request)?;
    put(out, b"Connection: close\r\n\r\n")
}

/// The bytes of a request to the host that `authority` names, after which the connection is closed.
pub fn request_bytes(alloc: Global, request: &Request, authority: &str) -> Result<Vec<u8>, Memory>
    ensures { IfOk result (λ b. b.items ≡ request_text request.now authority.now) }
{
    let mut out = Vec::new(alloc);
    put_request_line(&mut out, request)?;
    put_request_fields(alloc, &mut out, request, authority)?;
    put(&mut out, request.body.as_slice())?;
    Ok(out)
}

fn known_phrase(status: StatusCode) -> &'static str
    ensures { result.now ≡ unwrap_or (reason_phrase status) [] }
{
    status.canonical_reason().unwrap_or("")
}

fn phrase(status: u16) -> &'static str
    ensures { result.now ≡ phrase_text status }
{
    match StatusCode::from_u16(status) {
        Ok(status) => known_phrase(status),
        Err(_) => "",
    }
}

#[tactic(auto, unfolding(crate::specs::Written::status_line))]
fn put_status_line(alloc: Global, out: &mut Vec<u8>, status: u16) -> Result<(), Memory>
    ensures { OnOk result (out.new.items ≡ out.old.items ++ status_line status) }
{
    let number = decimal_text(alloc, u64::from(status))?;
    put(out, b"HTTP/1.1 ")?;
    put(out, number.as_bytes())?;
    put(out, b" ")?;
    put(out, phrase(status).as_bytes())?;
    put(out, b"\r\n")
}

#[tactic(auto, unfolding(crate::specs::Written::type_text))]
fn put_type(out: &mut Vec<u8>) -> Result<(), Memory>
    ensures { OnOk result (out.new.items ≡ out.old.items ++ type_text) }
{
    put_field(out, b"Content-Type", b"application/json")
}

fn put_allow(out: &mut Vec<u8>, status: u16, allow: &Option<Text>) -> Result<(), Memory>
    ensures { OnOk result (out.new.items ≡ out.old.items ++ allow_text status allow.now) }
{
    match allow {
        Some(methods) => {
            if status == 405 {
                return put_field(out, b"Allow", methods.as_str().as_bytes());
            }
            Ok(())
        }
        None => Ok(()),
    }
}

fn put_response_close(out: &mut Vec<u8>, close: bool) -> Result<(), Memory>
    ensures { OnOk result (out.new.items ≡ out.old.items ++ response_close_text close) }
{
    if close {
        return put_field(out, b"Connection", b"close");
    }
    Ok(())
}

#[tactic(auto, unfolding(crate::specs::Written::response_fields_text))]
fn put_response_fields(alloc: Global, out: &mut Vec<u8>, response: &Response) -> Result<(), Memory>
    ensures { OnOk result (out.new.items ≡ out.old.items ++ response_fields_text response.now) }
{
    put_type(out)?;
    put_allow(out, response.status, &response.allow)?;
    put_length(alloc, out, response.body.as_slice())?;
    put_response_close(out, response.close)?;
    put(out, b"\r\n")
}

/// Room for the lines of a response, beside a 405's methods.
const LINES_ROOM: usize = 256;

/// Room for all bytes of a response.
fn response_room(response: &Response) -> usize {
    let methods = match &response.allow {
        Some(methods) => methods.as_str().len(),
        None => 0,
    };
    let body = response.body.as_slice().len();
    body.saturating_add(methods).saturating_add(LINES_ROOM)
}

/// The bytes of a response. A status without a phrase has an empty one.
pub fn response_bytes(alloc: Global, response: &Response) -> Result<Vec<u8>, Memory>
    ensures { IfOk result (λ b. b.items ≡ response_text response.now) }
{
    let mut out = Vec::new(alloc);
    out.reserve(response_room(response))?;
    put_status_line(alloc, &mut out, response.status)?;
    put_response_fields(alloc, &mut out, response)?;
    put(&mut out, response.body.as_slice())?;
    Ok(out)
}

fn no_memory(close: bool) -> &'static [u8]
    ensures { result.now ≡ response_text (fault_response 500 close) }
{
    if close {
        return b"HTTP/1.1 500 Internal Server Error\r\nContent-Type: application/json\r\nContent-Length: 18\r\nConnection: close\r\n\r\n{\"error\":\"memory\"}";
    }
    b"HTTP/1.1 500 Internal Server Error\r\nContent-Type: application/json\r\nContent-Length: 18\r\n\r\n{\"error\":\"memory\"}"
}

fn no_disk(close: bool) -> &'static [u8]
    ensures { result.now ≡ response_text (fault_response 503 close) }
{
    if close {
        return b"HTTP/1.1 503 Service Unavailable\r\nContent-Type: application/json\r\nContent-Length: 16\r\nConnection: close\r\n\r\n{\"error\":\"disk\"}";
    }
    b"HTTP/1.1 503 Service Unavailable\r\nContent-Type: application/json\r\nContent-Length: 16\r\n\r\n{\"error\":\"disk\"}"
}

/// The reply where memory runs out (500) or a disk failed (503). It takes no memory.
pub fn fixed_reply(status: u16, close: bool) -> &'static [u8]
    requires { (status ≡ 500) ⊎ (status ≡ 503) }
    ensures { result.now ≡ response_text (fault_response status close) }
{
    if status == 500 {
        return no_memory(close);
    }
    no_disk(close)
}
