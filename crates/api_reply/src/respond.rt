//! Replies as responses.
ghost use Rattle.std.specs.Prelude.{◌≡◌, ◌≤◌, IfOk, Ok};
ghost use Rattle.serde_json.specs.Data.{depth};
ghost use Rattle.serde_json.specs.View.{view};
ghost use Rattle.serde_json.specs.Written.{compact_text};
ghost use Rattle.ps_json.specs.Tree.{IsWhole, tree_of};
ghost use Rattle.api_reply.specs.Bounds.{IsReplyShown};
ghost use Rattle.api_reply.specs.Replies.{reply_data, reply_status, response_of};

use crate::denial::{denial_status, write_denial, write_full, write_limits};
use crate::shown::{write_error, write_error_with};
use crate::told::{write_free, write_moment, write_result, write_state, write_yes};
use crate::view::{write_task_link, write_view};
use host_model::config::Config;
use host_model::reply::Reply;
use ps_http::message::Response;
use ps_json::tree::write_tree;
use ps_time::items::Items;
use ps_time::memory::Memory;
use ps_time::moment::Moment;
use run_states::life::state_of_closed;
use serde_json::Value;
use std::alloc::Global;

/// The compact text of a tree as the body of a response.
pub fn body_bytes(alloc: Global, value: &Value) -> Result<Items<u8>, Memory>
    requires { IsWhole (view value.now) }
    ensures text { IfOk result (λ body. body ≡ compact_text (view value.now)) }
    ensures reads { IfOk result (λ body. depth (view value.now) ≤ 64 → tree_of body ≡ Ok (view value.now)) }
{
    Ok(Items::from_vec(write_tree(alloc, value)?))
}

/// The status of HTTP with which a reply is shown.
pub fn reply_status(reply: &Reply) -> u16
    ensures { result ≡ reply_status reply.now }
{
    match reply {
        Reply::UnknownHost(_) => 400,
        Reply::NotAdmitted(_) => 403,
        Reply::NotPoster => 403,
        Reply::NotLead => 403,
        Reply::NotFound => 404,
        Reply::Unknown => 404,
        Reply::Closed(_) => 409,
        Reply::NotRunning => 409,
        Reply::TasksFull(_) => 507,
        Reply::Denied(denial) => denial_status(denial),
        _ => 200,
    }
}

fn write_reply(alloc: Global, config: &Config, reply: &Reply) -> Result<Value, Memory>
    requires { IsReplyShown reply.now }
    ensures { IfOk result (λ value. view value ≡ reply_data config.now reply.now) }
{
    match reply {
        Reply::Posted(serial) => write_task_link(alloc, config, *serial),
        Reply::UnknownHost(name) => {
            write_error_with(alloc, "unknown host", "name", name.as_str())
        }
        Reply::NotAdmitted(verdict) => write_limits(alloc, *verdict),
        Reply::TasksFull(count) => write_full(alloc, u64::from(*count), "tasks"),
        Reply::Canceled => write_yes(alloc, "canceled"),
        Reply::NotPoster => write_error(alloc, "not the poster"),
        Reply::NotFound => write_error(alloc, "not found"),
        Reply::NotLead => write_error(alloc, "not the lead"),
        Reply::View(shown) => write_view(alloc, config, shown.value()),
        Reply::Free(answer) => write_free(alloc, answer),
        Reply::Accepted(moment) => write_moment(alloc, "accepted", *moment),
        Reply::Denied(denial) => write_denial(alloc, config.name.as_str(), denial),
        Reply::Confirmed(moment) => write_moment(alloc, "confirmed", *moment),
        Reply::Unknown => write_error(alloc, "not found"),
        Reply::Closed(why) => {
            write_error_with(alloc, "closed", "why", state_of_closed(why).name())
        }
        Reply::Dropped => write_yes(alloc, "dropped"),
        Reply::MaterialHeard => write_yes(alloc, "heard"),
        Reply::NotRunning => write_error(alloc, "not running"),
        Reply::Result(text) => write_result(alloc, text),
        Reply::State(state) => write_state(alloc, *state),
        _ => Ok(Value::Null),
    }
}

/// The response to a request by what the step that it asked for answered. It doesn't close the connection. A moment
/// above the last one is shown as the last; nothing that is shown depends on the moment of the answer.
pub fn respond(
    alloc: Global,
    config: &Config,
    reply: &Reply,
    _moment: Moment,
) -> Result<Response, Memory>
    requires { IsReplyShown reply.now }
    ensures response { IfOk result (λ response. response ≡ response_of config.now reply.now) }
    ensures reads { IfOk result (λ response. depth (reply_data config.now reply.now) ≤ 64
        → tree_of response.body ≡ Ok (reply_data config.now reply.now)) }
{
    let value = write_reply(alloc, config, reply)?;
    let body = body_bytes(alloc, &value)?;
    Ok(Response {
        status: reply_status(reply),
        allow: None,
        close: false,
        body,
    })
}
