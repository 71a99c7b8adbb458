//! Refusals of requests as responses.
ghost use Rattle.std.specs.Prelude.{◌≡◌, IfOk};
ghost use Rattle.serde_json.specs.View.{view};
ghost use Rattle.api_reply.specs.Errors.{body_error, json_error, refusal_allow, refusal_error, refusal_status, refused};

use crate::respond::body_bytes;
use crate::shown::{write_error, write_error_with};
use api_input::refusal::Refusal;
use ps_http::message::Response;
use ps_json::fault::JsonFault;
use ps_time::memory::Memory;
use ps_time::text::Text;
use serde_json::Value;
use std::alloc::Global;
use task_spec::fault::TaskFault;

fn write_json_error(alloc: Global, fault: &JsonFault) -> Result<Value, Memory>
    ensures { IfOk result (λ value. view value ≡ json_error fault.now) }
{
    match fault {
        JsonFault::Syntax => write_error(alloc, "syntax"),
        JsonFault::TooDeep => write_error(alloc, "too deep"),
        JsonFault::NotUtf8 => write_error(alloc, "not utf-8"),
        JsonFault::Missing(name) => write_error_with(alloc, "missing", "member", name.as_str()),
        JsonFault::WrongKind(name) => {
            write_error_with(alloc, "wrong kind", "member", name.as_str())
        }
        JsonFault::Unknown(name) => write_error_with(alloc, "unknown", "member", name.as_str()),
        JsonFault::Memory => write_error(alloc, "memory"),
    }
}

fn write_body_error(alloc: Global, fault: &TaskFault) -> Result<Value, Memory>
    ensures { IfOk result (λ value. view value ≡ body_error fault.now) }
{
    match fault {
        TaskFault::Json(fault) => write_json_error(alloc, fault),
        TaskFault::BadTime(member, _) => {
            write_error_with(alloc, "bad time", "member", member.as_str())
        }
        TaskFault::UnknownTest(name) => {
            write_error_with(alloc, "unknown test", "name", name.as_str())
        }
        TaskFault::BadPriority => write_error(alloc, "bad priority"),
        TaskFault::UnknownTool(name) => {
            write_error_with(alloc, "unknown tool", "name", name.as_str())
        }
        TaskFault::UnknownArchiver(name) => {
            write_error_with(alloc, "unknown archiver", "name", name.as_str())
        }
        TaskFault::BadSpec(member) => {
            write_error_with(alloc, "bad spec", "member", member.as_str())
        }
        TaskFault::Memory => write_error(alloc, "memory"),
    }
}

fn write_refusal(alloc: Global, refusal: &Refusal) -> Result<Value, Memory>
    ensures { IfOk result (λ value. view value ≡ refusal_error refusal.now) }
{
    match refusal {
        Refusal::NotFound => write_error(alloc, "not found"),
        Refusal::Method(_) => write_error(alloc, "method"),
        Refusal::NoPeerKey => write_error(alloc, "no peer key"),
        Refusal::Query => write_error(alloc, "query"),
        Refusal::Body(fault) => write_body_error(alloc, fault),
        Refusal::Memory => write_error(alloc, "memory"),
    }
}

fn refusal_status(refusal: &Refusal) -> u16
    ensures { result ≡ refusal_status refusal.now }
{
    match refusal {
        Refusal::NotFound => 404,
        Refusal::Method(_) => 405,
        Refusal::NoPeerKey => 403,
        Refusal::Query => 400,
        Refusal::Body(_) => 400,
        Refusal::Memory => 500,
    }
}

/// The methods of the path, where another was used.
fn refusal_allow(alloc: Global, refusal: &Refusal) -> Result<Option<Text>, Memory>
    ensures { IfOk result (λ allow. allow ≡ refusal_allow refusal.now) }
{
    match refusal {
        Refusal::Method(methods) => Ok(Some(Text::new(alloc, methods.text())?)),
        _ => Ok(None),
    }
}

/// The response to a request that is refused. It doesn't close the connection.
pub fn refuse(alloc: Global, refusal: &Refusal) -> Result<Response, Memory>
    ensures { IfOk result (λ response. response ≡ refused refusal.now) }
{
    let value = write_refusal(alloc, refusal)?;
    let body = body_bytes(alloc, &value)?;
    Ok(Response {
        status: refusal_status(refusal),
        allow: refusal_allow(alloc, refusal)?,
        close: false,
        body,
    })
}
