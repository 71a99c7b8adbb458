//! Streams: what is read and written.
ghost use Rattle.std.specs.Prelude.{◌≡◌};

use crate::sink::Sink;
use crate::source::Source;

/// A source and a sink in one, each of which leaves the other alone.
pub trait Stream: Source + Sink {
    // A read leaves what was written, and the count of faults of writing.
    ghost reads_keep: { (a b : Self) → Self.kept a b
        → (Self.written b ≡ Self.written a) × (Self.write_faults b ≡ Self.write_faults a) };

    // A write leaves what is left to read, and the count of faults of reading.
    ghost writes_keep: { (a b : Self) → Self.sink_kept a b
        → (Self.left b ≡ Self.left a) × (Self.read_faults b ≡ Self.read_faults a) };
}

impl<T: Stream> Stream for &mut T {
    ghost reads_keep = { λ a b k. T.reads_keep a.now b.now k.1 };

    ghost writes_keep = { λ a b k. T.writes_keep a.now b.now k.1 };
}
