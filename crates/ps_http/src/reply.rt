//! A response that is whole in memory.
ghost use Rattle.std.specs.Prelude.{◌≡◌, ◌≤◌, length, take, IfOk, IfErr};
ghost use Rattle.ps_http.specs.Answer.{responses, IsMessage};
ghost use Rattle.ps_http.specs.Head.{IsHeaded};
ghost use Rattle.ps_http.specs.Reply.{IsReplyFault, refused_as};

use crate::fault::HttpFault;
use crate::head::Headed;
use crate::message::{HttpLimits, Response};
use crate::next::with_response_body;
use crate::reader::FieldSpans;
use crate::written::put;
use std::alloc::Global;

/// Why bytes aren't one response.
#[derive(Clone, Copy, Debug, PartialEq, Eq)]
pub enum ReplyFault {
    /// No response stands at their front.
    Refused(HttpFault),
    /// So many bytes follow the response.
    Follows(u64),
    Memory,
}

fn refused(fault: HttpFault) -> ReplyFault
    ensures { result ≡ refused_as fault }
{
    match fault {
        HttpFault::Memory => ReplyFault::Memory,
        other => ReplyFault::Refused(other),
    }
}

fn with_body(
    alloc: Global,
    bytes: &[u8],
    head: Headed<Response>,
    limits: HttpLimits,
) -> Result<Response, ReplyFault>
    requires headed { IsHeaded responses limits (take limits.head bytes.now) head.message head.size head.length }
    requires fits { head.size ≤ length bytes.now }
    ensures whole { IfOk result (IsMessage responses limits bytes.now) }
    ensures body { IfOk result (λ r. length r.body ≤ limits.body) }
    ensures fault { IfErr result (IsReplyFault limits bytes.now) }
{
    let Headed {
        message,
        size,
        length,
    } = head;
    let behind = bytes.len() - size;
    if behind < length {
        return Err(ReplyFault::Refused(HttpFault::EndInside(bytes.len() as u64)));
    }
    if length < behind {
        return Err(ReplyFault::Follows((behind - length) as u64));
    }
    let mut body = Vec::new(alloc);
    match put(&mut body, &bytes[size..]) {
        Ok(()) => Ok(with_response_body(message, body)),
        Err(_) => Err(ReplyFault::Memory),
    }
}

/// Reads bytes that are one response and nothing else, for a client that asks once. A head's limit
/// is at most 16,384 bytes.
pub fn read_reply(
    alloc: Global,
    fields: &mut FieldSpans,
    bytes: &[u8],
    limits: HttpLimits,
) -> Result<Response, ReplyFault>
    requires fits { limits.head ≤ 16384 }
    ensures whole { IfOk result (IsMessage responses limits bytes.now) }
    ensures body { IfOk result (λ r. length r.body ≤ limits.body) }
    ensures fault { IfErr result (IsReplyFault limits bytes.now) }
{
    let front = &bytes[..bytes.len().min(limits.head as usize)];
    match fields.response_head(alloc, front, limits) {
        Ok(head) => with_body(alloc, bytes, head, limits),
        Err(fault) => Err(refused(fault)),
    }
}
