//! What each step on the table tells, and how views are cut and joined.
ghost use Rattle.std.specs.Prelude.{None};
ghost use Rattle.host_gate.specs.declared.view.Stage.TheVariants.{Outside};
ghost use Rattle.host_gate.specs.Plays.{read, drawn, served, counts, ended, compared};

use crate::kept::Kept;
use crate::view::View;
use atomic_table::{Join, Play, Split};

/// Reads the next ticket.
pub struct Reads;

impl<K: Kept> Play<Option<K>, View<K>> for Reads {
    ghost then = { read };
}

/// Draws the next ticket, where nobody else did since it was read.
pub struct Draws;

impl<K: Kept> Play<Option<K>, View<K>> for Draws {
    ghost then = { drawn };
}

/// Looks which ticket is served; where it is its own, the slot goes over to it.
pub struct Looks;

impl<K: Kept> Play<Option<K>, View<K>> for Looks {
    ghost then = { served K.grown };
}

/// Counts a change of the state.
pub struct Counts;

impl<K: Kept> Play<Option<K>, View<K>> for Counts {
    ghost then = { counts };
}

/// Ends a turn: the next ticket is served, and the slot goes home.
pub struct Ends;

impl<K: Kept> Play<Option<K>, View<K>> for Ends {
    ghost then = { ended };
}

/// Compares what two passes have seen last, as one goes into the other.
pub struct Compares;

impl<K: Kept> Play<Option<K>, View<K>> for Compares {
    ghost then = { compared K.grown };
}

/// The new seat has seen what the old one has.
pub struct Splits;

impl<K: Kept> Split<View<K>> for Splits {
    ghost left = { λ v. v };

    ghost right = { λ v. v };
}

/// The kept seat has met what the other has seen.
pub struct Joins;

impl<K: Kept> Join<View<K>> for Joins {
    ghost both = { λ v w. record v { met = w.seen } };

    ghost spent = { record { read = 0; stage = Outside; seen = None; met = None } };
}
