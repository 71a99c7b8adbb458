//! Orders as bytes.
ghost use Rattle.std.specs.Prelude.{◌≡◌, ◌≤◌, All, IfOk, IfSome, IsTrue, List, Some, false, length, option_map, true, ℕ};
ghost use Rattle.ps_time.specs.Name.{is_name};
ghost use Rattle.ps_time.specs.Numbers.{most_request_bytes};
ghost use Rattle.ps_time.specs.declared.moment.TheConstants.{MAX_MOMENT};
ghost use Rattle.ps_http.specs.Answer.{IsMessage, requests};
ghost use Rattle.ps_http.specs.declared.message.PeerMark.{PeerMark};
ghost use Rattle.ps_json.specs.Answer.{GivesUnless};
ghost use Rattle.host_model.specs.declared.input.Input.{Input as Asked};
ghost use Rattle.host_model.specs.declared.order.Order.{Order as IsAnOrder};
ghost use Rattle.world_law.specs.World.{input_of, number_of};
ghost use Rattle.api_input.specs.Understood.{understood};
ghost use Rattle.api_peer.specs.Sent.{HasKeys};
ghost use Rattle.api_peer.specs.Meant.{KeepsBounds, Knows};
ghost use Rattle.api_peer.specs.Ordered.{IsOrder, order_request_of, peer_named};
ghost use Rattle.api_peer.specs.Carried.{CarriesFrom, CarriesOrder, message_limits};
ghost use Rattle.api_peer.specs.Texts.{HasWidth, orders_texts};

use crate::bounds_law::law_request;
use crate::read::{MOST_BODY, read_request};
use crate::request::{find_named, order_request};
use api_input::refusal::Refusal;
use api_input::understand::understand;
use host_model::config::{Config, Peer};
use host_model::input::Input;
use host_model::order::{Order, OrderBody};
use ps_http::law::law_requests_read_again;
use ps_http::message::Request;
use ps_http::reader::FieldSpans;
use ps_http::written::request_bytes;
use ps_time::items::Items;
use ps_time::memory::Memory;
use ps_time::moment::Moment;
use std::alloc::Global;

/// An order on its way.
pub struct SentOrder {
    /// The number of the host to which it goes.
    pub asked: u16,
    pub bytes: Items<u8>,
}

// Written out, so that a drop elsewhere is one call.
impl Drop for SentOrder {
    fn drop(self) {
        let SentOrder { asked: _, bytes: _ } = self;
    }
}

impl SentOrder {
    /// The bytes of the request, given away.
    pub fn into_bytes(self) -> Items<u8>
        ensures { result ≡ self.bytes }
    {
        let SentOrder { asked: _, bytes } = self;
        bytes
    }
}

// Whether the order tells texts for whose length there is no rule.
fn orders_texts(body: &OrderBody) -> bool
    ensures { result ≡ orders_texts body.now }
{
    match body {
        OrderBody::Propose(_) => true,
        OrderBody::Material(_) => true,
        _ => false,
    }
}

// The priority of a question has its width, as that of every value has. Does nothing.
fn order_width(body: &OrderBody)
    ensures { HasWidth body.now }
{
    match body {
        OrderBody::Free(question) => {
            let _priority = question.priority;
        }
        _ => {}
    }
}

// Whether the body is within the limit. That of a question always is, and those of most others are empty. Only a proposal and material are
// measured: what is known of an order (`IsOrder`) doesn't say how long the tool and the asker of a proposal are, nor how long material is.
fn is_short(config: &Config, order: &Order, request: &Request) -> bool
    requires request { order_request_of config.now order.now ≡ Some request.now }
    requires order { IsOrder order.now.body }
    ensures short { IsTrue result → length request.now.body ≤ most_request_bytes }
    ensures measured { orders_texts order.now.body ≡ false → IsTrue result }
{
    order_width(&order.body);
    if orders_texts(&order.body) {
        return request.body.len() <= MOST_BODY as usize;
    }
    true
}

fn write_request(
    alloc: Global,
    config: &Config,
    order: &Order,
    request: &Request,
    authority: &str,
) -> Result<Items<u8>, Memory>
    requires request { order_request_of config.now order.now ≡ Some request.now }
    requires order { IsOrder order.now.body }
    requires keys { HasKeys config.now }
    requires authority { is_name authority.now ≡ true }
    ensures { IfOk result (λ bytes. IsMessage requests message_limits bytes request.now) }
{
    law_request();
    law_requests_read_again();
    if !is_short(config, order, request) {
        return Err(Memory);
    }
    Ok(Items::from_vec(request_bytes(alloc, request, authority)?))
}

fn write_order(
    alloc: Global,
    config: &Config,
    peer: &Peer,
    order: &Order,
) -> Result<Option<SentOrder>, Memory>
    requires peer { peer_named config.now.peers order.now.to ≡ Some peer.now }
    requires order { IsOrder order.now.body }
    requires keys { HasKeys config.now }
    requires authority { is_name peer.now.authority ≡ true }
    ensures asked { IfOk result (λ made. option_map (λ s. s.asked) made ≡ Some peer.now.number) }
    ensures carries { IfOk result (λ made. IfSome made (λ s. CarriesFrom config.now order.now s.bytes)) }
{
    // It is found by its name there too.
    let Some(request) = order_request(alloc, config, order)? else {
        return Ok(None);
    };
    let bytes = write_request(alloc, config, order, &request, peer.authority.as_str());
    drop(request);
    Ok(Some(SentOrder {
        asked: peer.number,
        bytes: bytes?,
    }))
}

/// The order of a host with this configuration as the bytes of its request; none where it has no such peer. A proposal or material
/// whose body would be longer than 1,048,576 bytes is told as out of memory. No other body is so long.
pub fn send_order(
    alloc: Global,
    config: &Config,
    order: &Order,
) -> Result<Option<SentOrder>, Memory>
    requires order { IsOrder order.now.body }
    requires keys { HasKeys config.now }
    requires authorities { All (λ p. is_name p.authority ≡ true) config.now.peers }
    ensures asked { IfOk result (λ made. option_map (λ s. s.asked) made ≡ number_of config.now.peers order.now.to) }
    ensures carries { IfOk result (λ made. IfSome made (λ s. CarriesFrom config.now order.now s.bytes)) }
{
    match find_named(config.peers.as_slice(), order.to.as_str()) {
        Some(peer) => write_order(alloc, config, peer, order),
        None => Ok(None),
    }
}

// Where the request is an order of a host that is known here, only memory may run out.
fn understand_order(
    alloc: Global,
    config: &Config,
    request: &Request,
    clock: Moment,
) -> Result<Input, Refusal>
    requires { clock ≤ MAX_MOMENT }
    ensures { (i : Asked) → ((address : List ℕ) (m : ℕ) → understood config.now request.now address m ≡ Ok i) → GivesUnless Refusal.Memory result (Ok i) }
{
    understand(alloc, config, request, "127.0.0.1", clock)
}

/// What the bytes of an order ask the host with this configuration at a clock, in seconds since 1970 UTC.
pub fn receive_order(
    alloc: Global,
    fields: &mut FieldSpans,
    config: &Config,
    bytes: &[u8],
    clock: Moment,
) -> Result<Input, Memory>
    requires { clock ≤ MAX_MOMENT }
    ensures { (mark : PeerMark) (name : List ℕ) (o : IsAnOrder) → CarriesOrder mark o bytes.now → Knows config.now mark name → KeepsBounds name o.body
        → IfOk result (λ input. input ≡ input_of mark.number o.key o.body) }
{
    // Of such bytes neither the reader nor the interface refuses any.
    let Ok(request) = read_request(alloc, fields, bytes) else {
        return Err(Memory);
    };
    let asked = understand_order(alloc, config, &request, clock);
    drop(request);
    match asked {
        Ok(input) => Ok(input),
        Err(_) => Err(Memory),
    }
}
