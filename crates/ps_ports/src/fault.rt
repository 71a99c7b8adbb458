//! What reading and writing answers where it fails.

/// A call that failed. Its object has counted that.
#[derive(Clone, Copy, Debug, PartialEq, Eq)]
pub struct Failed;

/// Writing stopped before its end, since the sink failed.
#[derive(Clone, Copy, Debug, PartialEq, Eq)]
pub struct WriteFault;

/// Why a source wasn't read to its end.
#[derive(Clone, Copy, Debug, PartialEq, Eq)]
pub enum AllFault {
    /// The source failed.
    ReadFault,
    /// More bytes came than the caller takes.
    TooLong,
    Memory,
}
