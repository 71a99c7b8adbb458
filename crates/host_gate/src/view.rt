//! What a seat at the table knows. No value of these types is made.
use crate::kept::Kept;
use atomic_table::TableRule;
use std::snapshot::Snapshot;

/// A state, with its front: the count of changes that led to it.
pub struct Mark<K> {
    pub state: K,
    pub front: u64,
}

/// Where a seat stands in a call. In each stage but the first it has a ticket.
pub enum Stage<K> {
    Outside,
    Waits(u64),
    /// It has its turn, with the state as it was found.
    Holds(u64, Mark<K>),
    /// It has its turn, and the state that it leaves is counted.
    Leaves(u64, Mark<K>),
}

/// What is known of a seat: in which stage of a call it is, and what it has seen.
pub struct View<K> {
    /// The number that was read last as the next ticket.
    pub read: u64,
    pub stage: Stage<K>,
    /// `None` once the seat has gone into another.
    pub seen: Option<Mark<K>>,
    /// What a seat that went into this one had seen, until the two are compared.
    pub met: Option<Mark<K>>,
}

/// The rule of a gate's table. Word 0 is the next ticket, word 1 the ticket that is served, word 2 the count of changes. Slot 0 has the state.
pub struct Turns;

impl<K: Kept> TableRule<Option<K>, View<K>, Snapshot<K>> for Turns {
    ghost use Rattle.host_gate.specs.Stages.{first_view};
    ghost use Rattle.host_gate.specs.Line.{GateRule};

    ghost holds = { λ _ s. GateRule K.grown s.words s.homes s.views };

    ghost first = { λ key. first_view key.value };
}
