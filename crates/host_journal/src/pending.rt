//! What a failed call of a journal has left to look at.

/// What `reload` has to look at.
#[derive(Clone, Copy)]
pub enum Pending {
    /// No call failed, or a `reload` was `Ok` since.
    Nothing,
    /// A call failed before the write that opens a gate byte.
    Unopened,
    /// An `append` failed in or after that write. The place of the next gate byte, should the record stand.
    Record(u64),
    /// A `snapshot` failed in or after that write. The place of its first gate byte.
    Snapshot(u64),
}
