//! What a crash leaves of a disk in memory.

/// What a crash leaves of a disk in memory.
#[derive(Clone, Copy)]
pub enum Image {
    /// Writes and cuts since the last sync are dropped.
    Old,
    /// They are kept.
    New,
    /// Cuts are kept, and the first half, rounded down, of each write.
    Torn,
}
