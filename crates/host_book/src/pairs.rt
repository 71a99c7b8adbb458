//! The epochs under which runs were accepted, by their keys.
ghost use Rattle.std.specs.Prelude.{◌≡◌, ◌+◌, ◌<◌, ◌≤◌, [], None, IfOk, IfErr, OnOk, length, option_map};
ghost use Rattle.host_model.specs.Book.{find_pair};
ghost use Rattle.host_book.specs.Pairs.{drop_pair, with_pair, IsAscendingPairs, IsGapFor, IsPlaceOf};

use ps_lists::tiered_lent::Lent;
use ps_lists::tiered_list::TieredList;
use ps_time::items::Items;
use ps_time::key::RunKey;
use ps_time::memory::Memory;
use std::alloc::Global;
use std::marker::Model;

/// Pairs of a run and the number of its epoch, with different keys, and places that are reserved for more.
#[derive(Drop)]
pub(crate) struct Pairs {
    pairs: TieredList<(RunKey, u32)>,
}

impl Model for Pairs {
    ghost use Rattle.std.specs.Prelude.{◌-◌, length};
    ghost use Rattle.host_book.specs.Pairs.{Pairs as Seen, IsAscendingPairs};

    ghost Value = { Seen };

    ghost view = { λ p. record { list = p.pairs.list; room = p.pairs.places - length p.pairs.list } };

    ghost invariant = { λ p. IsAscendingPairs p.pairs.list };
}

impl Pairs {
    /// These pairs, which ascend by key.
    pub(crate) fn restore(alloc: Global, pairs: Items<(RunKey, u32)>) -> Result<Pairs, Memory>
        requires { IsAscendingPairs pairs }
        ensures { IfOk result (λ made. made.list ≡ pairs) }
    {
        let pairs = in_blocks(alloc, pairs.as_slice())?;
        Ok(Pairs { pairs })
    }

    /// Makes room for so many more pairs than there are now.
    pub(crate) fn reserve(&mut self, count: usize) -> Result<(), Memory>
        ensures same { self.new.list ≡ self.old.list }
        ensures never_less { self.old.room ≤ self.new.room }
        ensures ok { OnOk result (count ≤ self.new.room) }
    {
        self.pairs.reserve(count)
    }

    /// The pairs, ascending by key.
    pub(crate) fn in_order(&self) -> Lent<'_, (RunKey, u32)>
        ensures { result ≡ self.now.list }
    {
        self.pairs.in_order()
    }

    /// The number of the epoch that stands with the key.
    pub(crate) fn epoch_of(&self, key: RunKey) -> Option<u32>
        ensures { result ≡ option_map (λ p. p.1) (find_pair self.now.list key) }
    {
        match search(&self.pairs, key) {
            Ok(at) => Some(self.pairs[at].1),
            Err(_) => None,
        }
    }

    /// Takes no memory.
    pub(crate) fn put(&mut self, key: RunKey, epoch: u32)
        requires room { 0 < self.old.room }
        requires new_key { find_pair self.old.list key ≡ None }
        ensures list { self.new.list ≡ with_pair self.old.list (key, epoch) }
        ensures room { self.new.room + 1 ≡ self.old.room }
    {
        match search(&self.pairs, key) {
            Ok(_) => unreachable!(),
            Err(at) => self.pairs.insert(at, (key, epoch)),
        }
    }

    /// Takes the pair of the key out, if there is one; its place stays reserved.
    pub(crate) fn purge(&mut self, key: RunKey)
        ensures list { self.new.list ≡ drop_pair self.old.list key }
        ensures room { self.old.room ≤ self.new.room }
    {
        match search(&self.pairs, key) {
            Ok(at) => {
                self.pairs.remove(at);
            }
            Err(_) => {}
        }
    }
}

// The pairs, one after another, with no places for more than their last block has.
fn in_blocks(alloc: Global, pairs: &[(RunKey, u32)]) -> Result<TieredList<(RunKey, u32)>, Memory>
    ensures { IfOk result (λ made. made.list ≡ pairs.now) }
{
    let mut list = TieredList::new(alloc);
    list.reserve(pairs.len())?;
    push_each(&mut list, pairs);
    Ok(list)
}

fn push_each(list: &mut TieredList<(RunKey, u32)>, pairs: &[(RunKey, u32)])
    requires none { list.old.list ≡ [] }
    requires places { length pairs.now ≤ list.old.places }
    ensures { list.new.list ≡ pairs.now }
{
    for pair in pairs {
        list.push(*pair);
    }
}

// Where the key is among the pairs, or where it would go.
fn search(pairs: &TieredList<(RunKey, u32)>, key: RunKey) -> Result<usize, usize>
    requires { IsAscendingPairs pairs.now.list }
    ensures found { IfOk result (IsPlaceOf pairs.now.list key) }
    ensures absent { IfErr result (IsGapFor pairs.now.list key) }
{
    pairs.in_order().binary_search_by_key(&key, |pair| pair.0)
}
