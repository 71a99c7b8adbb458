//! What a kept host is asked, and the steps that it keeps.

use host_book::ready::Ready;
use host_model::input::Input;
use ps_time::items::Items;
use ps_time::moment::Moment;

/// An input at a clock.
#[derive(Drop)]
pub struct HostCall {
    /// In seconds since 1970 UTC.
    pub clock: Moment,
    pub input: Input,
}

/// A step, with all that a book needs to take it in.
#[derive(Drop)]
pub struct HostStep {
    /// Of the step, in seconds since 1970 UTC.
    pub moment: Moment,
    /// What it changes, in order; not empty.
    pub list: Items<Ready>,
    /// The bytes of its record.
    pub record: Vec<u8>,
}
