//! Values that are written as bytes.
ghost use Rattle.std.specs.Prelude.{◌++◌, ◌∷◌, ◌≡◌, IfOk, OnOk};
ghost use Rattle.value_bytes.specs.Codec.{◌&◌, Codec};
ghost use Rattle.value_bytes.specs.Gives.{Gives};
ghost use Rattle.value_bytes.specs.Laws.{IsCodec};

use ps_time::boxed::Boxed;
use ps_time::memory::Memory;
use std::alloc::Global;
use value_bytes::fault::CodeFault;

/// A type whose values are written as bytes, and are read from them.
pub trait Coded: Drop {
    // Which values can be written and have bytes, the bytes of each, and what is read from bytes.
    ghost codec: { Codec Self };

    /// Adds the bytes of the value.
    fn write(&self, alloc: Global, out: &mut Vec<u8>) -> Result<(), Memory>
        requires { codec.Writable self.now }
        ensures code { OnOk result (out.new.items ≡ out.old.items ++ codec.code self.now) }
        ensures fits { OnOk result (codec.Fits self.now) };

    /// The value with whose bytes these begin, and the bytes behind it.
    fn read(alloc: Global, bytes: &[u8]) -> Result<(Self, &[u8]), CodeFault>
        ensures value { Gives (λ x. (x.0, x.1.now)) result (codec.read bytes.now) }
        ensures fits { IfOk result (λ x. codec.Fits x.0) };

    // What has bytes is read again, whatever follows them, and the bytes begin with those of what is read.
    ghost laws: { IsCodec codec };
}

impl<A: Coded, B: Coded> Coded for (A, B) {
    ghost use Rattle.value_bytes.specs.Codec.{◌&◌};
    ghost use Rattle.value_bytes.specs.PairLaws.{pair_is};

    ghost codec = { A.codec & B.codec };

    fn write(&self, alloc: Global, out: &mut Vec<u8>) -> Result<(), Memory> {
        write_two(alloc, &self.0, &self.1, out)
    }

    fn read(alloc: Global, bytes: &[u8]) -> Result<((A, B), &[u8]), CodeFault> {
        let (first, rest) = A::read(alloc, bytes)?;
        let (second, rest) = B::read(alloc, rest)?;
        Ok(((first, second), rest))
    }

    ghost laws = { pair_is A.laws B.laws };
}

impl<T: Coded> Coded for Option<T> {
    ghost use Rattle.value_bytes.specs.Codec.{option};
    ghost use Rattle.value_bytes.specs.ListLaws.{option_is};

    ghost codec = { option T.codec };

    fn write(&self, alloc: Global, out: &mut Vec<u8>) -> Result<(), Memory> {
        match self {
            None => 0u8.write(alloc, out),
            Some(value) => {
                out.push(1)?;
                value.write(alloc, out)
            }
        }
    }

    fn read(alloc: Global, bytes: &[u8]) -> Result<(Option<T>, &[u8]), CodeFault> {
        match bytes {
            [0, rest @ ..] => Ok((None, rest)),
            [1, rest @ ..] => {
                let (value, rest) = T::read(alloc, rest)?;
                Ok((Some(value), rest))
            }
            _ => Err(CodeFault::NoValue),
        }
    }

    ghost laws = { option_is T.codec T.laws };
}

impl<T: Coded> Coded for Boxed<T> {
    ghost codec = { T.codec };

    fn write(&self, alloc: Global, out: &mut Vec<u8>) -> Result<(), Memory> {
        self.value().write(alloc, out)
    }

    fn read(alloc: Global, bytes: &[u8]) -> Result<(Boxed<T>, &[u8]), CodeFault> {
        let (value, rest) = T::read(alloc, bytes)?;
        Ok((Boxed::new(alloc, value)?, rest))
    }

    ghost laws = { T.laws };
}

/// Adds the bytes of two values, one behind the other.
pub fn write_two<A: Coded, B: Coded>(
    alloc: Global,
    a: &A,
    b: &B,
    out: &mut Vec<u8>,
) -> Result<(), Memory>
    requires { (A.codec & B.codec).Writable (a.now, b.now) }
    ensures code { OnOk result (out.new.items ≡ out.old.items ++ (A.codec & B.codec).code (a.now, b.now)) }
    ensures fits { OnOk result ((A.codec & B.codec).Fits (a.now, b.now)) }
{
    a.write(alloc, out)?;
    b.write(alloc, out)
}

/// Adds the bytes of three values, one behind the other.
pub fn write_three<A: Coded, B: Coded, C: Coded>(
    alloc: Global,
    a: &A,
    b: &B,
    c: &C,
    out: &mut Vec<u8>,
) -> Result<(), Memory>
    requires { (A.codec & (B.codec & C.codec)).Writable (a.now, (b.now, c.now)) }
    ensures code { OnOk result (out.new.items ≡ out.old.items ++ (A.codec & (B.codec & C.codec)).code (a.now, (b.now, c.now))) }
    ensures fits { OnOk result ((A.codec & (B.codec & C.codec)).Fits (a.now, (b.now, c.now))) }
{
    a.write(alloc, out)?;
    write_two(alloc, b, c, out)
}

/// Adds the bytes of four values, one behind the other.
pub fn write_four<A: Coded, B: Coded, C: Coded, D: Coded>(
    alloc: Global,
    a: &A,
    b: &B,
    c: &C,
    d: &D,
    out: &mut Vec<u8>,
) -> Result<(), Memory>
    requires { (A.codec & (B.codec & (C.codec & D.codec))).Writable (a.now, (b.now, (c.now, d.now))) }
    ensures code { OnOk result (out.new.items ≡ out.old.items ++ (A.codec & (B.codec & (C.codec & D.codec))).code (a.now, (b.now, (c.now, d.now)))) }
    ensures fits { OnOk result ((A.codec & (B.codec & (C.codec & D.codec))).Fits (a.now, (b.now, (c.now, d.now)))) }
{
    a.write(alloc, out)?;
    write_three(alloc, b, c, d, out)
}

/// Adds the bytes of a variant of one field: its number, and the bytes of its fields.
pub fn write_variant<T: Coded>(
    alloc: Global,
    number: u8,
    fields: &T,
    out: &mut Vec<u8>,
) -> Result<(), Memory>
    requires { T.codec.Writable fields.now }
    ensures code { OnOk result (out.new.items ≡ out.old.items ++ number ∷ T.codec.code fields.now) }
    ensures fits { OnOk result (T.codec.Fits fields.now) }
{
    out.push(number)?;
    fields.write(alloc, out)
}

/// Adds the bytes of a variant of two fields: its number, and the bytes of its fields.
pub fn write_variant_2<A: Coded, B: Coded>(
    alloc: Global,
    number: u8,
    a: &A,
    b: &B,
    out: &mut Vec<u8>,
) -> Result<(), Memory>
    requires { (A.codec & B.codec).Writable (a.now, b.now) }
    ensures code { OnOk result (out.new.items ≡ out.old.items ++ number ∷ (A.codec & B.codec).code (a.now, b.now)) }
    ensures fits { OnOk result ((A.codec & B.codec).Fits (a.now, b.now)) }
{
    out.push(number)?;
    write_two(alloc, a, b, out)
}

/// Adds the bytes of a variant of three fields: its number, and the bytes of its fields.
pub fn write_variant_3<A: Coded, B: Coded, C: Coded>(
    alloc: Global,
    number: u8,
    a: &A,
    b: &B,
    c: &C,
    out: &mut Vec<u8>,
) -> Result<(), Memory>
    requires { (A.codec & (B.codec & C.codec)).Writable (a.now, (b.now, c.now)) }
    ensures code { OnOk result (out.new.items ≡ out.old.items ++ number ∷ (A.codec & (B.codec & C.codec)).code (a.now, (b.now, c.now))) }
    ensures fits { OnOk result ((A.codec & (B.codec & C.codec)).Fits (a.now, (b.now, c.now))) }
{
    out.push(number)?;
    write_three(alloc, a, b, c, out)
}

/// Adds the bytes of a variant of four fields: its number, and the bytes of its fields.
pub fn write_variant_4<A: Coded, B: Coded, C: Coded, D: Coded>(
    alloc: Global,
    number: u8,
    a: &A,
    b: &B,
    c: &C,
    d: &D,
    out: &mut Vec<u8>,
) -> Result<(), Memory>
    requires { (A.codec & (B.codec & (C.codec & D.codec))).Writable (a.now, (b.now, (c.now, d.now))) }
    ensures code { OnOk result (out.new.items ≡ out.old.items ++ number ∷ (A.codec & (B.codec & (C.codec & D.codec))).code (a.now, (b.now, (c.now, d.now)))) }
    ensures fits { OnOk result ((A.codec & (B.codec & (C.codec & D.codec))).Fits (a.now, (b.now, (c.now, d.now)))) }
{
    out.push(number)?;
    write_four(alloc, a, b, c, d, out)
}
