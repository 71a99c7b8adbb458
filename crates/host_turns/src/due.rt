//! What may be due of a run.

/// What may be due of a run that is live, in the order in which a turn looks for it.
#[derive(Clone, Copy)]
pub enum Due {
    /// Its tool is done, and it ends.
    End,
    /// Its results are there, or were waited for, and are merged.
    Merge,
    /// Its start has come.
    Start,
    /// All participants have told when they are free, and it is planned, or closed.
    Plan,
}
