//! Bytes that are those of one value, followed by nothing.
ghost use Rattle.std.specs.Prelude.{◌++◌, ◌≡◌, ℕ, List, IfOk, IfSome, Option, Some};
ghost use Rattle.value_bytes.specs.Reading.{whole_of};

use crate::coded::Coded;
use ps_time::memory::Memory;
use std::alloc::Global;
use value_bytes::fault::CodeFault;

fn read_all<T: Coded>(alloc: Global, bytes: &[u8]) -> Result<Option<T>, Memory>
    ensures exact { IfOk result (λ o. o ≡ whole_of (T.codec.read bytes.now)) }
    ensures fits { IfOk result (λ o. IfSome o T.codec.Fits) }
{
    match T::read(alloc, bytes) {
        Ok((value, [])) => Ok(Some(value)),
        Ok((value, [_, ..])) => {
            drop(value);
            Ok(None)
        }
        Err(CodeFault::NoValue) => Ok(None),
        Err(CodeFault::Memory) => Err(Memory),
    }
}

/// The value whose bytes these are, followed by nothing; `None` where they are those of no value.
pub fn read_whole<T: Coded>(alloc: Global, bytes: &[u8]) -> Result<Option<T>, Memory>
    ensures found { IfOk result (λ o. IfSome o (λ x. T.codec.Fits x × (bytes.now ≡ T.codec.code x))) }
    ensures only { IfOk result (λ o. (x : T) → T.codec.Fits x → bytes.now ≡ T.codec.code x → o ≡ Some x) }
    ensures exact { IfOk result (λ o. o ≡ whole_of (T.codec.read bytes.now)) }
{
    read_all(alloc, bytes)
}

/// A law: no two values have the same bytes, and the bytes of none begin those of another.
pub fn law_one_code<T: Coded>()
    ensures { (a b : T) (x y : List ℕ) → T.codec.Fits a → T.codec.Fits b → T.codec.code a ++ x ≡ T.codec.code b ++ y → (a ≡ b) × (x ≡ y) }
{}
