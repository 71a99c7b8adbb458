//! Why a message wasn't read.

/// The refusals and faults of a reader.
#[derive(Clone, Copy, Debug, PartialEq, Eq)]
pub enum HttpFault {
    /// The bytes can't begin a head, or the head breaks a rule of the profile.
    BadHead,
    /// A body of unknown length: one that is encoded, or whose length is wanted and missing.
    NoLength,
    /// The head is longer than its limit or has more than 64 fields, or the body is longer than its
    /// limit.
    TooLarge,
    /// The input ended inside the message, of which so many bytes came.
    EndInside(u64),
    /// The source failed.
    ReadFault,
    /// The reader answered a fault before.
    AfterRefusal,
    Memory,
}
