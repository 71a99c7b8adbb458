//! How a search among ascending items goes on.
ghost use Rattle.std.specs.Prelude.{◌<◌};

/// How many of the last items are tested before a search goes by halves: most items come behind the others.
pub const FROM_THE_END: usize = 2;

/// How many of so many items stand before the one that is tested next.
pub fn next_part(size: usize, tries: usize) -> usize
    requires { 1 < size }
    ensures some { 0 < result }
    ensures less { result < size }
{
    if 0 < tries { size - 1 } else { size / 2 }
}
