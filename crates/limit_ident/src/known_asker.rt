//! Who asks, with the address read once.
ghost use Rattle.std.specs.Prelude.{◌≡◌};
ghost use Rattle.limit_ident.specs.Address.{address_of};

use crate::address::{Address, read_address};
use ps_time::asker::Asker;
use std::marker::Model;

/// Who asks, and the requester's address, which is read once for many questions. Contracts see who asks.
#[derive(Drop)]
pub struct KnownAsker<'a> {
    asker: &'a Asker,
    address: Option<Address>,
}

impl<'a> Model for KnownAsker<'a> {
    ghost use Rattle.std.specs.Prelude.{◌≡◌};
    ghost use Rattle.ps_time.specs.declared.asker.Asker.{Asker};
    ghost use Rattle.limit_ident.specs.Address.{address_of};

    ghost Value = { Asker };

    ghost view = { λ k. k.asker.now };

    ghost invariant = { λ k. k.address ≡ address_of k.asker.now.requester };
}

impl<'a> KnownAsker<'a> {
    /// Who asks, with the address read once for all identifiers.
    pub fn new(asker: &'a Asker) -> KnownAsker<'a>
        ensures { result ≡ asker.now }
    {
        KnownAsker {
            asker,
            address: read_address(asker.requester.as_str()),
        }
    }

    pub(crate) fn asker(&self) -> &Asker
        ensures { result.now ≡ self.now }
    {
        self.asker
    }

    /// The address that the requester reads as, if any.
    pub(crate) fn address(&self) -> Option<Address>
        ensures { result ≡ address_of self.now.requester }
    {
        self.address
    }
}
