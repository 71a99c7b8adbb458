//! Texts that are cut at one character.
ghost use Rattle.std.specs.Prelude.{◌≡◌, ◌==◌, [], length, IfOk, slice_index_or};
ghost use Rattle.std.specs.List.{slice_split};

use ps_time::memory::Memory;
use std::alloc::Global;
use std::marker::Model;

/// The parts of a text between the places of one character.
#[derive(Drop)]
pub struct Parts<'a> {
    parts: Vec<&'a str>,
}

impl<'a> Model for Parts<'a> {
    ghost use Rattle.std.specs.Prelude.{ℕ, List, map};

    ghost Value = { List (List ℕ) };

    ghost view = { λ s. map (λ x. x.now) s.parts.items };
}

impl<'a> Parts<'a> {
    /// The parts of a path between its slashes. The first one of an absolute path is empty.
    pub fn of_path(alloc: Global, path: &'a str) -> Result<Parts<'a>, Memory>
        ensures { IfOk result (λ s. s ≡ slice_split (λ b. b == 47) path.now) }
    {
        Ok(Parts {
            parts: path.split('/').collect(alloc)?,
        })
    }

    /// The parts of a query between its ampersands.
    pub fn of_query(alloc: Global, query: &'a str) -> Result<Parts<'a>, Memory>
        ensures { IfOk result (λ s. s ≡ slice_split (λ b. b == 38) query.now) }
    {
        Ok(Parts {
            parts: query.split('&').collect(alloc)?,
        })
    }

    /// A name and a value, and whatever else stands between equal signs.
    pub fn of_pair(alloc: Global, pair: &'a str) -> Result<Parts<'a>, Memory>
        ensures { IfOk result (λ s. s ≡ slice_split (λ b. b == 61) pair.now) }
    {
        Ok(Parts {
            parts: pair.split('=').collect(alloc)?,
        })
    }

    /// How many parts there are.
    pub fn len(&self) -> usize
        ensures { result ≡ length self.now }
    {
        self.parts.len()
    }

    /// The part at this place, counted from 0; an empty one where there is none.
    pub fn at(&self, place: usize) -> &'a str
        ensures { result.now ≡ slice_index_or self.now place [] }
    {
        if place < self.parts.len() {
            self.parts[place]
        } else {
            ""
        }
    }
}
