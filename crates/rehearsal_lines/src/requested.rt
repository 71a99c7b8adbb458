//! The requests that lines of a script make.
ghost use Rattle.std.specs.Prelude.{◌≡◌, ◌≤◌, IfOk, option_map};
ghost use Rattle.std.specs.List.{before_first};
ghost use Rattle.ps_http.specs.Fields.{behind, cuts_at};
ghost use Rattle.ps_time.specs.declared.moment.TheConstants.{MAX_MOMENT};
ghost use Rattle.host_model.specs.Conditions.{IsInput};
ghost use Rattle.api_input.specs.Understood.{understood};
ghost use Rattle.api_reply.specs.Replies.{answered};
ghost use Rattle.api_reply.specs.Shown.{error};
ghost use Rattle.rehearsal_model.specs.Requests.{asks, delete, get, is_target, is_too_large, or_refused, post, request_to};

use api_body::bodies::MOST_BODY;
use api_input::refusal::Refusal;
use api_input::understand::understand;
use api_reply::refusal::refuse;
use api_reply::respond::body_bytes;
use api_reply::shown::write_error;
use host_model::config::Config;
use host_model::input::Input;
use ps_http::message::{MAX_HEAD, Request, Response};
use ps_time::items::Items;
use ps_time::memory::Memory;
use ps_time::moment::Moment;
use ps_time::text::Text;
use std::alloc::Global;

/// What a request comes to: what it asks, or the response that refuses it.
pub type Asked = Result<Input, Response>;

/// A task is posted from an address.
pub fn post(
    alloc: Global,
    config: &Config,
    address: &str,
    body: &str,
    clock: Moment,
) -> Result<Asked, Memory>
    requires { clock ≤ MAX_MOMENT }
    ensures value { IfOk result (λ asked. asked ≡ post config.now address.now body.now clock) }
    ensures input { IfOk result (λ asked. IfOk asked (IsInput config.now)) }
{
    let target = "/pscheduler/tasks";
    read_request(alloc, config, "POST", target, body, address, clock)
}

/// Somebody on the host itself asks for what stands at a path.
pub fn get(alloc: Global, config: &Config, target: &str, clock: Moment) -> Result<Asked, Memory>
    requires { clock ≤ MAX_MOMENT }
    ensures value { IfOk result (λ asked. asked ≡ get config.now target.now clock) }
    ensures input { IfOk result (λ asked. IfOk asked (IsInput config.now)) }
{
    read_request(alloc, config, "GET", target, "", "127.0.0.1", clock)
}

/// What stands at a path is to be canceled, by somebody at an address.
pub fn delete(
    alloc: Global,
    config: &Config,
    address: &str,
    target: &str,
    clock: Moment,
) -> Result<Asked, Memory>
    requires { clock ≤ MAX_MOMENT }
    ensures value { IfOk result (λ asked. asked ≡ delete config.now address.now target.now clock) }
    ensures input { IfOk result (λ asked. IfOk asked (IsInput config.now)) }
{
    read_request(alloc, config, "DELETE", target, "", address, clock)
}

// The path and the query of a target.
fn split_target(target: &str) -> (&str, Option<&str>)
    ensures path { result.0.now ≡ before_first (cuts_at 63) target.now }
    ensures query { option_map (λ q. q.now) result.1 ≡ behind 63 target.now }
{
    match target.split_once('?') {
        Some((path, query)) => (path, Some(query)),
        None => (target, None),
    }
}

fn query_text(alloc: Global, query: Option<&str>) -> Result<Option<Text>, Memory>
    ensures { IfOk result (λ text. text ≡ option_map (λ q. q.now) query.entry) }
{
    match query {
        Some(query) => {
            let query = Text::new(alloc, query)?;
            Ok(Some(query))
        }
        None => Ok(None),
    }
}

fn body_of(alloc: Global, body: &str) -> Result<Items<u8>, Memory>
    ensures { IfOk result (λ bytes. bytes ≡ body.now) }
{
    let mut bytes = Vec::new(alloc);
    bytes.extend_from_slice(body.as_bytes())?;
    Ok(Items::from_vec(bytes))
}

// A request of somebody who is no peer.
fn request_to(alloc: Global, method: &str, target: &str, body: &str) -> Result<Request, Memory>
    ensures { IfOk result (λ request. request ≡ request_to method.now target.now body.now) }
{
    let (path, query) = split_target(target);
    let method = Text::new(alloc, method)?;
    let path = Text::new(alloc, path)?;
    let query = query_text(alloc, query)?;
    let body = body_of(alloc, body)?;
    Ok(Request {
        method,
        path,
        query,
        peer: None,
        close: false,
        body,
    })
}

// It begins with `/`, and has only bytes of a target (RFC 9112, 3.2).
fn is_target(target: &str) -> bool
    ensures { result ≡ is_target target.now }
{
    let bytes = target.as_bytes();
    let [b'/', ..] = bytes else {
        return false;
    };
    for byte in bytes {
        if *byte <= b' ' || *byte == 0x7F {
            return false;
        }
    }
    true
}

fn is_too_large(target: &str, body: &str) -> bool
    ensures { result ≡ is_too_large target.now body.now }
{
    target.len() > MAX_HEAD as usize || body.len() > MOST_BODY
}

// The response of a refusal that says no more than this.
fn refusal(alloc: Global, status: u16, text: &str) -> Result<Response, Memory>
    ensures { IfOk result (λ response. response ≡ answered status (error text.now)) }
{
    let value = write_error(alloc, text)?;
    let body = body_bytes(alloc, &value)?;
    Ok(Response {
        status,
        allow: None,
        close: false,
        body,
    })
}

fn read_request(
    alloc: Global,
    config: &Config,
    method: &str,
    target: &str,
    body: &str,
    address: &str,
    clock: Moment,
) -> Result<Asked, Memory>
    requires { clock ≤ MAX_MOMENT }
    ensures value { IfOk result (λ asked. asked ≡ asks config.now method.now target.now body.now address.now clock) }
    ensures input { IfOk result (λ asked. IfOk asked (IsInput config.now)) }
{
    if !is_target(target) {
        return Ok(Err(refusal(alloc, 400, "bad head")?));
    }
    if is_too_large(target, body) {
        return Ok(Err(refusal(alloc, 413, "too large")?));
    }
    let request = request_to(alloc, method, target, body)?;
    asked(alloc, config, &request, address, clock)
}

fn asked(
    alloc: Global,
    config: &Config,
    request: &Request,
    address: &str,
    clock: Moment,
) -> Result<Asked, Memory>
    requires { clock ≤ MAX_MOMENT }
    ensures value { IfOk result (λ asked. asked ≡ or_refused (understood config.now request.now address.now clock)) }
    ensures input { IfOk result (λ asked. IfOk asked (IsInput config.now)) }
{
    match understand(alloc, config, request, address, clock) {
        Ok(input) => Ok(Ok(input)),
        Err(Refusal::Memory) => Err(Memory),
        Err(refusal) => {
            let response = refuse(alloc, &refusal);
            drop(refusal);
            Ok(Err(response?))
        }
    }
}
