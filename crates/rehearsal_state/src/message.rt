//! Messages between the hosts of a script.
ghost use Rattle.std.specs.Prelude.{◌≡◌, ◌≤◌, IfOk, None, Some};
ghost use Rattle.ps_time.specs.declared.moment.TheConstants.{MAX_MOMENT};
ghost use Rattle.api_reply.specs.Bounds.{IsReplyShown};
ghost use Rattle.api_peer.specs.Replied.{IsReplyTo};
ghost use Rattle.api_peer.specs.Carried.{CarriesOrder};
ghost use Rattle.world_law.specs.Events.{brings, goes_to};
ghost use Rattle.rehearsal_model.specs.Hosts.{peer_key};
ghost use Rattle.rehearsal_model.specs.Reaching.{IsKnown};

use api_peer::order::receive_order;
use api_peer::reply::{receive_reply, send_reply};
use host_model::config::Config;
use host_model::input::Input;
use host_model::order::Order;
use host_model::reply::Reply;
use host_queries::orders::copy_order;
use ps_http::reader::FieldSpans;
use ps_time::items::Items;
use ps_time::memory::Memory;
use ps_time::moment::Moment;
use std::alloc::Global;
use std::marker::Model;

/// An order of one host to another; or the reply to it, which goes the other way. What comes to a host is read of the bytes alone;
/// the host that ordered knows its order besides.
pub struct Message {
    /// The number of the host whose order it is.
    pub asker: u16,
    /// The number of the host to which the order goes.
    pub asked: u16,
    pub order: Order,
    pub reply: Option<Reply>,
    bytes: Items<u8>,
}

impl Model for Message {
    ghost use Rattle.world_law.specs.World.{Message as Sent};
    ghost use Rattle.rehearsal_state.specs.Carried.{IsCarried};

    ghost Value = { Sent };

    ghost view = { λ m. record { asker = m.asker; asked = m.asked; order = m.order; reply = m.reply } };

    ghost invariant = { λ m. IsCarried m.asker m.order m.reply m.bytes };
}

// Written out, so that a drop elsewhere is one call.
impl Drop for Message {
    fn drop(self) {
        let Message {
            asker: _,
            asked: _,
            order: _,
            reply: _,
            bytes: _,
        } = self;
    }
}

impl Message {
    /// The order of the host with the number `asker`, whose bytes are these.
    pub(crate) fn ordered(asker: u16, asked: u16, order: Order, bytes: Items<u8>) -> Message
        requires { CarriesOrder (record { number = asker; key = peer_key }) order bytes }
        ensures { result ≡ record { asker = asker; asked = asked; order = order; reply = None } }
    {
        Message {
            asker,
            asked,
            order,
            reply: None,
            bytes,
        }
    }

    /// The number of the host to which it goes.
    pub fn goes_to(&self) -> u16
        ensures { result ≡ goes_to self.now self.now.reply }
    {
        match &self.reply {
            None => self.asked,
            Some(_) => self.asker,
        }
    }

    /// The bytes of HTTP that carry it.
    pub fn bytes(&self) -> &[u8] {
        self.bytes.as_slice()
    }

    /// What the host with this configuration, to which it goes, is asked by its bytes at a clock, in seconds since 1970 UTC.
    pub fn brings(
        &self,
        alloc: Global,
        fields: &mut FieldSpans,
        config: &Config,
        clock: Moment,
    ) -> Result<Input, Memory>
        requires clock { clock ≤ MAX_MOMENT }
        requires known { self.now.reply ≡ None → IsKnown config.now self.now }
        ensures { IfOk result (λ input. input ≡ brings self.now self.now.reply) }
    {
        let bytes = self.bytes.as_slice();
        match &self.reply {
            None => receive_order(alloc, fields, config, bytes, clock),
            Some(_) => {
                let order = copy_order(alloc, &self.order)?;
                receive_reply(alloc, fields, order, bytes)
            }
        }
    }

    /// The reply to it, an order, of the host with this configuration.
    pub fn answered(&self, alloc: Global, config: &Config, reply: Reply) -> Result<Message, Memory>
        requires shown { IsReplyShown reply }
        requires told { IsReplyTo self.now.order.body reply }
        ensures { IfOk result (λ made. made ≡ record self.now { reply = Some reply }) }
    {
        let bytes = match send_reply(alloc, config, &self.order, &reply) {
            Ok(bytes) => bytes,
            Err(fault) => {
                drop(reply);
                return Err(fault);
            }
        };
        match copy_order(alloc, &self.order) {
            Ok(order) => Ok(Message {
                asker: self.asker,
                asked: self.asked,
                order,
                reply: Some(reply),
                bytes,
            }),
            Err(fault) => {
                drop(reply);
                drop(bytes);
                Err(fault)
            }
        }
    }
}
