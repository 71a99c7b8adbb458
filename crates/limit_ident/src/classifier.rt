//! Classifiers: which identifiers have to be true.
ghost use Rattle.std.specs.Prelude.{◌≡◌, ◌<◌, length, IfOk};
ghost use Rattle.limit_ident.specs.Classifier.{held, held_at};

use crate::identifier::Identifiers;
use crate::known_asker::KnownAsker;
use crate::named::{Entries, Named, copy_places};
use crate::require::{PlaceTest, Require};
use ps_time::duplicate::Duplicate;
use ps_time::items::Items;
use ps_time::memory::Memory;
use std::alloc::Global;
use std::marker::Model;

/// A group of those who ask: of whom so many of its identifiers are true as it requires.
#[derive(Drop)]
pub struct Classifier {
    /// Places of identifiers.
    pub identifiers: Items<usize>,
    pub require: Require,
}

/// The classifiers of a configuration, seen by contracts as a list.
#[derive(Drop)]
pub struct Classifiers {
    list: Items<Named<Classifier>>,
}

impl Model for Classifiers {
    ghost use Rattle.std.specs.Prelude.{List};
    ghost use Rattle.limit_ident.specs.declared.named.Named.{Named};
    ghost use Rattle.limit_ident.specs.declared.classifier.Classifier.{Classifier};

    ghost Value = { List (Named Classifier) };

    ghost view = { λ c. c.list };
}

impl Duplicate for Classifier {
    fn duplicate(&self, alloc: Global) -> Result<Classifier, Memory> {
        Ok(Classifier {
            identifiers: copy_places(alloc, self.identifiers.as_slice())?,
            require: self.require,
        })
    }
}

/// Which identifiers are true of who asks.
#[derive(Clone, Copy)]
struct AreTrue<'a> {
    identifiers: &'a Identifiers,
    asker: &'a KnownAsker<'a>,
}

impl<'a> PlaceTest for AreTrue<'a> {
    ghost use Rattle.limit_ident.specs.Identifier.{identified_at};

    ghost outcome = { λ t place. identified_at t.identifiers.now t.asker.now place };

    fn passes(&self, place: usize) -> bool {
        self.identifiers.is_true(place, self.asker)
    }
}

impl Classifier {
    fn holds(&self, identifiers: &Identifiers, asker: &KnownAsker) -> bool
        ensures { result ≡ held identifiers.now asker.now self.now }
    {
        let test = AreTrue { identifiers, asker };
        self.require.is_met(self.identifiers.as_slice(), &test)
    }
}

impl Classifiers {
    /// The classifiers of the entries that were read, in their order.
    pub fn from_entries(entries: Entries<Classifier>) -> Classifiers
        ensures { result ≡ entries }
    {
        Classifiers {
            list: entries.into_items(),
        }
    }

    /// The classifiers, in their order.
    pub fn as_slice(&self) -> &[Named<Classifier>]
        ensures { result.now ≡ self.now }
    {
        self.list.as_slice()
    }

    /// How many classifiers there are.
    pub fn len(&self) -> usize
        ensures { result ≡ length self.now }
    {
        self.list.len()
    }

    /// Whether the classifier at this place holds of who asks.
    pub fn holds(&self, index: usize, identifiers: &Identifiers, asker: &KnownAsker) -> bool
        requires { index < length self.now }
        ensures { result ≡ held_at self.now identifiers.now asker.now index }
    {
        self.list[index].value.holds(identifiers, asker)
    }

    /// The same classifiers once more.
    pub fn copy(&self, alloc: Global) -> Result<Classifiers, Memory>
        ensures { IfOk result (λ made. made ≡ self.now) }
    {
        Ok(Classifiers {
            list: self.list.copy(alloc)?,
        })
    }
}
