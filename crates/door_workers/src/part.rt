//! A door with the token for its streams, as it is handed over and as it comes back.

/// A door, and the token for its streams.
#[derive(Drop)]
pub struct Part<D, T> {
    pub door: D,
    pub token: T,
}

/// How a door ended.
#[derive(Clone, Copy, Debug, PartialEq, Eq)]
pub enum End {
    /// The door gives no more streams.
    Closed,
    /// The door failed.
    Failed,
}

/// A door that has ended.
#[derive(Drop)]
pub struct Ended<D, T> {
    pub door: D,
    pub token: T,
    pub end: End,
}

/// A door as it stands, with its end, if it has ended.
#[derive(Drop)]
pub struct Served<D, T> {
    pub door: D,
    pub token: T,
    pub end: Option<End>,
}
