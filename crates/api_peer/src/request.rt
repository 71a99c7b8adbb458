//! The requests by which a host orders.
ghost use Rattle.std.specs.Option.{option_copied};
ghost use Rattle.std.specs.Prelude.{◌≡◌, IfOk, IfSome};
ghost use Rattle.plugin_core.specs.Bounds.{IsTest};
ghost use Rattle.host_model.specs.declared.order.OrderBody.{OrderBody};
ghost use Rattle.api_peer.specs.Meant.{IsMeant, IsReadKey, IsUnderstood};
ghost use Rattle.api_peer.specs.Ordered.{IsOrder, asked, mark_for, order_request_of, peer_named, request_by, run_path};

use crate::body::{material_bytes, proposal_bytes, question_bytes, run_id};
use host_model::config::{Config, Peer};
use host_model::order::{Order, OrderBody};
use ps_http::message::{PeerMark, Request};
use ps_time::items::Items;
use ps_time::key::RunKey;
use ps_time::memory::Memory;
use ps_time::text::Text;
use run_states::proposal::{Proposal, Question};
use std::alloc::Global;

/// The path at which this is asked of a run.
fn run_path(alloc: Global, key: RunKey, asked: &str) -> Result<Text, Memory>
    ensures text { IfOk result (λ path. path ≡ run_path key asked.now) }
    ensures reads { IfOk result (λ path. IsReadKey key) }
{
    let run = run_id(alloc, key)?;
    Ok(Text::from_string(format!(in alloc; "/pscheduler/peer/runs/{run}{asked}")?))
}

fn ask(
    alloc: Global,
    config: &Config,
    peer: &Peer,
    method: &str,
    path: Text,
    body: Items<u8>,
) -> Result<Request, Memory>
    ensures { IfOk result (λ made. made ≡ asked (mark_for config.now peer.now) method.now path body) }
{
    let method = Text::new(alloc, method)?;
    let key = peer.key.copy(alloc)?;
    Ok(Request {
        method,
        path,
        query: None,
        peer: Some(PeerMark {
            number: config.number,
            key,
        }),
        close: true,
        body,
    })
}

fn ask_free(
    alloc: Global,
    config: &Config,
    peer: &Peer,
    key: RunKey,
    question: &Question,
) -> Result<Request, Memory>
    requires { IsTest question.now.test }
    ensures request { IfOk result (λ made. made ≡ request_by (mark_for config.now peer.now) key (OrderBody.Free question.now)) }
    ensures meant { IfOk result (IsMeant (mark_for config.now peer.now) key (OrderBody.Free question.now)) }
{
    let body = question_bytes(alloc, question)?;
    let path = Text::new(alloc, "/pscheduler/peer/free")?;
    ask(alloc, config, peer, "POST", path, body)
}

fn propose(
    alloc: Global,
    config: &Config,
    peer: &Peer,
    key: RunKey,
    proposal: &Proposal,
) -> Result<Request, Memory>
    requires { IsTest proposal.now.test }
    ensures request { IfOk result (λ made. made ≡ request_by (mark_for config.now peer.now) key (OrderBody.Propose proposal.now)) }
    ensures meant { IfOk result (IsMeant (mark_for config.now peer.now) key (OrderBody.Propose proposal.now)) }
{
    let body = proposal_bytes(alloc, proposal)?;
    let path = Text::new(alloc, "/pscheduler/peer/runs")?;
    ask(alloc, config, peer, "POST", path, body)
}

fn confirm(alloc: Global, config: &Config, peer: &Peer, key: RunKey) -> Result<Request, Memory>
    ensures request { IfOk result (λ made. made ≡ request_by (mark_for config.now peer.now) key OrderBody.Confirm) }
    ensures meant { IfOk result (IsMeant (mark_for config.now peer.now) key OrderBody.Confirm) }
{
    let path = run_path(alloc, key, "/confirm")?;
    ask(alloc, config, peer, "PUT", path, Items::new(alloc))
}

fn cancel(alloc: Global, config: &Config, peer: &Peer, key: RunKey) -> Result<Request, Memory>
    ensures request { IfOk result (λ made. made ≡ request_by (mark_for config.now peer.now) key OrderBody.Cancel) }
    ensures meant { IfOk result (IsMeant (mark_for config.now peer.now) key OrderBody.Cancel) }
{
    let path = run_path(alloc, key, "")?;
    ask(alloc, config, peer, "DELETE", path, Items::new(alloc))
}

fn hand_over(
    alloc: Global,
    config: &Config,
    peer: &Peer,
    key: RunKey,
    text: &Text,
) -> Result<Request, Memory>
    ensures request { IfOk result (λ made. made ≡ request_by (mark_for config.now peer.now) key (OrderBody.Material text.now)) }
    ensures meant { IfOk result (IsMeant (mark_for config.now peer.now) key (OrderBody.Material text.now)) }
{
    let body = material_bytes(alloc, text)?;
    let path = run_path(alloc, key, "/material")?;
    ask(alloc, config, peer, "PUT", path, body)
}

fn ask_result(alloc: Global, config: &Config, peer: &Peer, key: RunKey) -> Result<Request, Memory>
    ensures request { IfOk result (λ made. made ≡ request_by (mark_for config.now peer.now) key OrderBody.Result) }
    ensures meant { IfOk result (IsMeant (mark_for config.now peer.now) key OrderBody.Result) }
{
    let path = run_path(alloc, key, "/result")?;
    ask(alloc, config, peer, "GET", path, Items::new(alloc))
}

/// The request to a peer about the run of a key.
fn request_by(
    alloc: Global,
    config: &Config,
    peer: &Peer,
    key: RunKey,
    body: &OrderBody,
) -> Result<Request, Memory>
    requires { IsOrder body.now }
    ensures request { IfOk result (λ made. made ≡ request_by (mark_for config.now peer.now) key body.now) }
    ensures meant { IfOk result (IsMeant (mark_for config.now peer.now) key body.now) }
{
    match body {
        OrderBody::Free(question) => ask_free(alloc, config, peer, key, question),
        OrderBody::Propose(proposal) => propose(alloc, config, peer, key, proposal),
        OrderBody::Confirm => confirm(alloc, config, peer, key),
        OrderBody::Cancel => cancel(alloc, config, peer, key),
        OrderBody::Material(text) => hand_over(alloc, config, peer, key, text),
        OrderBody::Result => ask_result(alloc, config, peer, key),
    }
}

/// The peer of this name.
pub fn find_named<'c>(peers: &'c [Peer], name: &str) -> Option<&'c Peer>
    ensures { option_copied result ≡ peer_named peers.entry.now name.now }
{
    for peer in peers {
        if peer.name.as_str() == name {
            return Some(peer);
        }
    }
    None
}

/// The request by which a host with this configuration orders; none where the participant is no peer of it. It goes to
/// the peer's authority, and its connection is closed after the reply. Each host that knows the sender takes it for the
/// input that the order means.
pub fn order_request(
    alloc: Global,
    config: &Config,
    order: &Order,
) -> Result<Option<Request>, Memory>
    requires { IsOrder order.now.body }
    ensures request { IfOk result (λ made. made ≡ order_request_of config.now order.now) }
    ensures understood { IfOk result (λ made. IfSome made (IsUnderstood config.now order.now)) }
{
    let Some(peer) = find_named(config.peers.as_slice(), order.to.as_str()) else {
        return Ok(None);
    };
    Ok(Some(request_by(alloc, config, peer, order.key, &order.body)?))
}
