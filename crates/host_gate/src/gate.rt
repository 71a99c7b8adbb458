//! The gate and its passes.
ghost use Rattle.std.specs.Prelude.{◌≡◌, ◌≤◌, ◌<◌, ◌^◌, Some, IfOk, IfErr};
ghost use Rattle.host_gate.specs.declared.view.Mark.{Mark};
ghost use Rattle.host_gate.specs.Marks.{Follows, Meets, HasFront};
ghost use Rattle.host_gate.specs.Plays.{mark};
ghost use Rattle.host_gate.specs.Calls.{Standing, Stepped};

use crate::kept::Kept;
use crate::plays::Splits;
use crate::turn::{LAST_TURN, PassSeat, enter, enter_last, join, serve, take, wait};
use crate::view::{Turns, View};
use atomic_table::{Refused, Table};
use std::alloc::Global;
use std::marker::Model;
use std::snapshot::Snapshot;
use std::sync::Wait;

/// The count of calls that changed the state, since its gate was made.
#[derive(Clone, Copy, Debug, PartialEq, Eq)]
pub struct Front(pub u64);

/// The gate has no more tickets.
#[derive(Clone, Copy, Debug, PartialEq, Eq)]
pub struct Spent {
    /// The next ticket, as it was read.
    pub ticket: u64,
}

/// There was no memory.
#[derive(Clone, Copy)]
pub struct Memory;

/// A gate over one state, at which passes take turns. Threads may share it where the state may be
/// sent from thread to thread.
#[derive(Drop)]
pub struct Gate<K: Kept> {
    table: Table<Option<K>, View<K>, Snapshot<K>, Turns, Global>,
}

impl<K: Kept> Model for Gate<K> {
    ghost use Rattle.std.specs.Prelude.{◌≡◌};
    ghost use Rattle.atomic_table.specs.Seated.{TableId, table_id_coded};

    ghost Value = { TableId };

    ghost coded = { table_id_coded };

    ghost view = { λ g. g.table.shared.table_id };

    ghost invariant = { λ g. g.table.shared.table_id.words ≡ 3 };
}

/// The right to call through a gate, one call at a time. It may go to another thread. It is of no
/// use at any other gate.
#[derive(Drop)]
pub struct Pass<K> {
    seat: PassSeat<K>,
    front: u64,
}

impl<K> Model for Pass<K> {
    ghost use Rattle.host_gate.specs.Calls.{Standing, IsIdle};

    ghost Value = { Standing K };

    ghost view = { λ p. record { gate = p.seat.table_id; seen = p.seat.me.0.seen; read = p.seat.me.0.read } };

    ghost invariant = { λ p. IsIdle p.seat.me p.front };
}

impl<K> Pass<K> {
    /// The front of the state that the pass has seen last.
    pub fn front(&self) -> Front
        ensures { HasFront self.now.seen result.0 }
    {
        Front(self.front)
    }
}

impl<K: Kept> Gate<K> {
    /// A gate over a state, and the first pass, which has seen it. Without memory the state comes back.
    pub fn new(alloc: Global, kept: K) -> Result<(Gate<K>, Pass<K>), (K, Memory)>
        ensures made { IfOk result (λ r. r.1 ≡ record { gate = r.0; seen = Some (mark kept 0); read = 0 }) }
        ensures refused { IfErr result (λ r. r.0 ≡ kept) }
    {
        Gate::starting_at(alloc, kept, 0)
    }

    /// A gate over a state, and the first pass, with this as the first ticket, of at most 2^63: from there on each call answers
    /// `Spent`. So what a gate does at the end of its tickets can be seen without drawing them all.
    pub fn starting_at(
        alloc: Global,
        kept: K,
        ticket: u64,
    ) -> Result<(Gate<K>, Pass<K>), (K, Memory)>
        requires { ticket ≤ 2 ^ 63 }
        ensures made { IfOk result (λ r. r.1 ≡ record { gate = r.0; seen = Some (mark kept 0); read = 0 }) }
        ensures refused { IfErr result (λ r. r.0 ≡ kept) }
    {
        let about = Snapshot::of(&kept);
        let mut slots = Vec::new(alloc);
        if let Err(refused) = slots.push(Some(kept)) {
            slots.destroy_empty();
            let Some(kept) = refused.value else {
                unreachable!()
            };
            return Err((kept, Memory));
        }
        match Table::new(alloc, &[ticket, ticket, 0], slots, &about) {
            Ok((table, seat)) => Ok((Gate { table }, Pass { seat, front: 0 })),
            Err(refused) => {
                let Refused { mut slots } = refused;
                let Some(Some(kept)) = slots.pop() else {
                    unreachable!()
                };
                slots.destroy_empty();
                Err((kept, Memory))
            }
        }
    }

    /// Waits for the pass's turn, and makes one call on the state behind the gate. A spent gate makes
    /// none. It takes no memory of its own.
    pub fn call<R: Wait>(
        &self,
        rt: &R,
        pass: &mut Pass<K>,
        call: K::Call,
    ) -> Result<(K::Reply, Front), Spent>
    where
        K::Call: Drop,
        requires gate { pass.old.gate ≡ self.now }
        requires may { (m : Mark K) → pass.old.seen ≡ Some m → K.may m.state call }
        ensures gate { pass.new.gate ≡ pass.old.gate }
        ensures step { IfOk result (λ r. Stepped K.grown K.steps pass.old.seen call r.0 pass.new.seen) }
        ensures front { IfOk result (λ r. HasFront pass.new.seen r.1.0) }
        ensures drawn { IfOk result (λ _. pass.new.read < 2 ^ 63) }
        ensures spent { IfErr result (λ s. (s.ticket ≡ pass.new.read) × (2 ^ 63 ≤ pass.new.read)) }
        ensures unmoved { IfErr result (λ _. pass.new.seen ≡ pass.old.seen) }
        ensures later { pass.old.read ≤ pass.new.read }
    {
        let board = &self.table.shared;
        match enter(rt, board, &mut pass.seat, LAST_TURN - 1) {
            Ok(ticket) => {
                let (reply, front) = serve(rt, board, &mut pass.seat, ticket, call);
                pass.front = front;
                Ok((reply, Front(front)))
            }
            Err(ticket) => Err(Spent { ticket }),
        }
    }

    /// Another pass, which has seen what this one has.
    pub fn split(&self, pass: &mut Pass<K>) -> Pass<K>
        requires { pass.old.gate ≡ self.now }
        ensures { (pass.new ≡ pass.old) × (result ≡ pass.old) }
    {
        let seat = self.table.shared.split_seat::<Splits>(&mut pass.seat);
        Pass {
            seat,
            front: pass.front,
        }
    }

    /// Takes in another pass, and keeps the later of what the two have seen.
    pub fn meet(&self, pass: &mut Pass<K>, other: Pass<K>)
        requires { (pass.old.gate ≡ self.now) × (other.gate ≡ self.now) }
        ensures same { (pass.new.gate ≡ pass.old.gate) × (pass.new.read ≡ pass.old.read) }
        ensures kept { Meets K.grown pass.old.seen other.seen pass.new.seen }
    {
        let Pass { seat, front } = other;
        join(&self.table.shared, &mut pass.seat, seat);
        pass.front = pass.front.max(front);
    }

    /// Waits for a last turn, and gives back the state with its front. The gate's other passes are of
    /// no use from then on.
    pub fn close<R: Wait>(self, rt: &R, pass: Pass<K>) -> (K, Front)
    where
        K: Drop,
        requires { pass.gate ≡ self }
        ensures { (before : Mark K) × (pass.seen ≡ Some before) × Follows K.grown before (mark result.0 result.1.0) }
    {
        let Pass { mut seat, front: _ } = pass;
        let board = &self.table.shared;
        let ticket = enter_last(rt, board, &mut seat);
        wait(rt, board, &mut seat, ticket);
        let (kept, front) = take(board, &mut seat);
        (kept, Front(front))
    }
}
