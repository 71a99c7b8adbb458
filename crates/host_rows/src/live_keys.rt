//! The keys of the rows that are live.
ghost use Rattle.std.specs.Prelude.{◌≡◌, ◌<◌, ◌≤◌, [], IfErr, IfOk, None, OnOk, length, true};
ghost use Rattle.run_states.specs.Rows.{IsAscendingRows};
ghost use Rattle.host_rows.specs.LiveKeys.{drop_key, find_own, marked, with_key, IsGapFor, IsPlaceOf};
ghost use Rattle.host_rows.specs.Still.{live_keys};

use crate::still::is_live;
use ps_lists::tiered_lent::Lent;
use ps_lists::tiered_list::TieredList;
use ps_time::items::Items;
use ps_time::key::RunKey;
use ps_time::memory::Memory;
use run_states::row::RunRow;
use std::alloc::Global;
use std::marker::Model;

/// Different keys in ascending order, in places that were reserved.
#[derive(Drop)]
pub struct LiveKeys {
    keys: TieredList<RunKey>,
}

impl Model for LiveKeys {
    ghost use Rattle.host_rows.specs.LiveKeys.{LiveKeys as Seen, IsAscendingKeys};

    ghost Value = { Seen };

    ghost view = { λ k. record { list = k.keys.list; places = k.keys.places } };

    ghost invariant = { λ k. IsAscendingKeys k.keys.list };
}

impl LiveKeys {
    /// No keys, without reserved places.
    pub fn new(alloc: Global) -> LiveKeys
        ensures { result.list ≡ [] }
    {
        LiveKeys {
            keys: TieredList::new(alloc),
        }
    }

    /// Makes so many places, those of the keys that are there among them.
    pub fn reserve(&mut self, places: usize) -> Result<(), Memory>
        ensures same { self.new.list ≡ self.old.list }
        ensures never_less { self.old.places ≤ self.new.places }
        ensures ok { OnOk result (places ≤ self.new.places) }
    {
        self.keys.reserve(places.saturating_sub(self.keys.len()))
    }

    /// The keys, ascending.
    pub fn in_order(&self) -> Lent<'_, RunKey>
        ensures { result ≡ self.now.list }
    {
        self.keys.in_order()
    }

    /// The keys, ascending, in a list of their own.
    pub fn to_list(&self, alloc: Global) -> Result<Items<RunKey>, Memory>
        ensures { IfOk result (λ made. made ≡ self.now.list) }
    {
        listed(alloc, self.keys.in_order())
    }

    /// Puts the key in where it is live, and takes it out where it isn't. Takes no memory.
    pub fn mark(&mut self, key: RunKey, live: bool)
        requires { live ≡ true → find_own self.old.list key ≡ None → length self.old.list < self.old.places }
        ensures list { self.new.list ≡ marked live self.old.list key }
        ensures places { self.new.places ≡ self.old.places }
    {
        if live {
            self.put(key);
        } else {
            self.remove(key);
        }
    }

    fn put(&mut self, key: RunKey)
        requires { find_own self.old.list key ≡ None → length self.old.list < self.old.places }
        ensures list { self.new.list ≡ with_key (drop_key self.old.list key) key }
        ensures places { self.new.places ≡ self.old.places }
    {
        match self.search(key) {
            Ok(_) => {}
            Err(at) => self.keys.insert(at, key),
        }
    }

    fn remove(&mut self, key: RunKey)
        ensures list { self.new.list ≡ drop_key self.old.list key }
        ensures places { self.new.places ≡ self.old.places }
    {
        match self.search(key) {
            Ok(at) => {
                self.keys.remove(at);
            }
            Err(_) => {}
        }
    }

    /// The same keys once more.
    pub fn copy(&self, alloc: Global) -> Result<LiveKeys, Memory>
        ensures { IfOk result (λ made. made.list ≡ self.now.list) }
    {
        let mut keys = TieredList::new(alloc);
        add_all(&mut keys, self.keys.in_order())?;
        Ok(LiveKeys { keys })
    }

    /// Puts the key in, unless it is there.
    pub fn add(&mut self, key: RunKey) -> Result<(), Memory>
        ensures { OnOk result (self.new.list ≡ marked true self.old.list key) }
    {
        self.keys.reserve(1)?;
        self.mark(key, true);
        Ok(())
    }

    /// Makes the keys those of the rows that are live at the host with this number. Takes no memory.
    pub fn refill(&mut self, rows: &[RunRow], number: u16)
        requires ascending { IsAscendingRows rows.now }
        requires places { length rows.now ≤ self.old.places }
        ensures list { self.new.list ≡ live_keys number rows.now }
        ensures places { self.old.places ≤ self.new.places }
    {
        self.keys.clear();
        fill(&mut self.keys, rows, number);
    }

    // Where the key is, or where it would go.
    fn search(&self, key: RunKey) -> Result<usize, usize>
        ensures found { IfOk result (IsPlaceOf self.now.list key) }
        ensures absent { IfErr result (IsGapFor self.now.list key) }
    {
        self.keys.in_order().binary_search_by_key(&key, |own| *own)
    }
}

// Adds the keys to none.
fn add_all(made: &mut TieredList<RunKey>, keys: Lent<'_, RunKey>) -> Result<(), Memory>
    requires { made.old.list ≡ [] }
    ensures { OnOk result (made.new.list ≡ keys.entry) }
{
    made.reserve(keys.len())?;
    for key in keys {
        made.push(*key);
    }
    Ok(())
}

// The keys in a list of their own.
fn listed(alloc: Global, keys: Lent<'_, RunKey>) -> Result<Items<RunKey>, Memory>
    ensures { IfOk result (λ made. made ≡ keys.entry) }
{
    let mut made = Vec::with_capacity(alloc, keys.len())?;
    for key in keys {
        made.push(*key)?;
    }
    Ok(Items::from_vec(made))
}

// Adds the keys of the rows that are live at the host with this number to none.
fn fill(keys: &mut TieredList<RunKey>, rows: &[RunRow], number: u16)
    requires none { keys.old.list ≡ [] }
    requires places { length rows.now ≤ keys.old.places }
    ensures list { keys.new.list ≡ live_keys number rows.now }
    ensures places { keys.old.places ≤ keys.new.places }
{
    for row in rows {
        if is_live(row, number) {
            keys.push(row.key);
        }
    }
}
