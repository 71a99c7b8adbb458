//! Taking part in a run: what a host answers that is asked for free starts, and to which a run is proposed, confirmed
//! or canceled, over any reading access to its book.
#![tactic(auto)]

pub mod answer;
pub mod confirm;
pub mod decision;
pub mod fit;
pub mod reading;
pub mod reservations;
