//! Replies to orders as bytes.
ghost use Rattle.std.specs.Prelude.{◌≡◌, ◌≤◌, IfOk, IsTrue, false, length};
ghost use Rattle.ps_time.specs.Numbers.{most_request_bytes};
ghost use Rattle.ps_http.specs.Answer.{IsMessage, responses};
ghost use Rattle.host_model.specs.declared.input.Input.TheVariants.{Heard as AsHeard};
ghost use Rattle.host_model.specs.declared.reply.Reply.{Reply as IsAReply};
ghost use Rattle.world_law.specs.World.{heard_as};
ghost use Rattle.api_reply.specs.Bounds.{IsReplyShown};
ghost use Rattle.api_reply.specs.Replies.{response_of};
ghost use Rattle.api_peer.specs.Replied.{IsReplyTo};
ghost use Rattle.api_peer.specs.Carried.{CarriesReply, message_limits};
ghost use Rattle.api_peer.specs.Texts.{tells_texts};

use crate::heard_law::law_heard;
use crate::read::{MOST_BODY, read_response};
use api_answer::heard::heard;
use api_reply::respond::respond;
use host_model::config::Config;
use host_model::input::Input;
use host_model::order::Order;
use host_model::reply::Reply;
use ps_http::law::law_responses_read_again;
use ps_http::message::Response;
use ps_http::reader::FieldSpans;
use ps_http::written::response_bytes;
use ps_time::items::Items;
use ps_time::memory::Memory;
use run_states::why::Denial;
use std::alloc::Global;

// Whether the reply tells texts for whose length there is no rule.
fn tells_texts(reply: &Reply) -> bool
    ensures { result ≡ tells_texts reply.now }
{
    match reply {
        Reply::Denied(denial) => match denial {
            Denial::NotParticipant => true,
            Denial::NoTool(_) => true,
            Denial::Differs(_, _) => true,
            _ => false,
        },
        _ => false,
    }
}

// Whether the body is within the limit. It always is, but for three denials. Only they are measured: what is known of a reply to an order
// (`IsReplyTo`) doesn't say how long the name of a host that takes no part is, nor the tool that it lacks, and two proposals that differ
// may have texts of 960,000 bytes each.
fn is_short(config: &Config, order: &Order, reply: &Reply, response: &Response) -> bool
    requires response { response.now ≡ response_of config.now reply.now }
    requires told { IsReplyTo order.now.body reply.now }
    ensures short { IsTrue result → length response.now.body ≤ most_request_bytes }
    ensures measured { tells_texts reply.now ≡ false → IsTrue result }
{
    if tells_texts(reply) {
        return response.body.len() <= MOST_BODY as usize;
    }
    true
}

fn write_response(
    alloc: Global,
    config: &Config,
    order: &Order,
    reply: &Reply,
    response: &Response,
) -> Result<Items<u8>, Memory>
    requires response { response.now ≡ response_of config.now reply.now }
    requires told { IsReplyTo order.now.body reply.now }
    ensures whole { IfOk result (λ bytes. IsMessage responses message_limits bytes response.now) }
    ensures short { IfOk result (λ bytes. length response.now.body ≤ most_request_bytes) }
{
    law_responses_read_again();
    if !is_short(config, order, reply, response) {
        return Err(Memory);
    }
    Ok(Items::from_vec(response_bytes(alloc, response)?))
}

/// The reply of the host with this configuration to an order, as the bytes of its response. A denial that tells the host's name, a tool
/// or two proposals, and whose body would be longer than 1,048,576 bytes, is told as out of memory. No other body is so long.
pub fn send_reply(
    alloc: Global,
    config: &Config,
    order: &Order,
    reply: &Reply,
) -> Result<Items<u8>, Memory>
    requires shown { IsReplyShown reply.now }
    requires told { IsReplyTo order.now.body reply.now }
    ensures { IfOk result (λ bytes. CarriesReply order.now reply.now bytes) }
{
    law_heard();
    let response = respond(alloc, config, reply, 0)?;
    let bytes = write_response(alloc, config, order, reply, &response);
    drop(response);
    bytes
}

/// What the host that ordered hears by the bytes of a reply.
pub fn receive_reply(
    alloc: Global,
    fields: &mut FieldSpans,
    order: Order,
    bytes: &[u8],
) -> Result<Input, Memory>
    ensures { (said : IsAReply) → CarriesReply order said bytes.now → IfOk result (λ input. input ≡ AsHeard order (heard_as said)) }
{
    // Of such bytes the reader refuses none, and each is an answer.
    let Ok(response) = read_response(alloc, fields, bytes) else {
        drop(order);
        return Err(Memory);
    };
    let input = heard(alloc, order, &response);
    drop(response);
    match input? {
        Some(input) => Ok(input),
        None => Err(Memory),
    }
}
