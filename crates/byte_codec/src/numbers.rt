//! Numbers and marks as bytes.

use crate::coded::Coded;
use ps_time::memory::Memory;
use std::alloc::Global;
use value_bytes::fault::CodeFault;
use value_bytes::numbers::{u16_at, u32_at, u64_at};

impl Coded for u8 {
    ghost use Rattle.value_bytes.specs.Codec.{number_8};
    ghost use Rattle.value_bytes.specs.NumberLaws.{number_8_is};

    ghost codec = { number_8 };

    fn write(&self, _alloc: Global, out: &mut Vec<u8>) -> Result<(), Memory> {
        out.push(*self)?;
        Ok(())
    }

    fn read(_alloc: Global, bytes: &[u8]) -> Result<(u8, &[u8]), CodeFault> {
        match bytes {
            [] => Err(CodeFault::NoValue),
            [byte, rest @ ..] => Ok((*byte, rest)),
        }
    }

    ghost laws = { number_8_is };
}

impl Coded for u16 {
    ghost use Rattle.value_bytes.specs.Codec.{number_16};
    ghost use Rattle.value_bytes.specs.NumberLaws.{number_16_is};

    ghost codec = { number_16 };

    fn write(&self, _alloc: Global, out: &mut Vec<u8>) -> Result<(), Memory> {
        out.extend_from_slice(&self.to_be_bytes())?;
        Ok(())
    }

    fn read(_alloc: Global, bytes: &[u8]) -> Result<(u16, &[u8]), CodeFault> {
        u16_at(bytes)
    }

    ghost laws = { number_16_is };
}

impl Coded for u32 {
    ghost use Rattle.value_bytes.specs.Codec.{number_32};
    ghost use Rattle.value_bytes.specs.NumberLaws.{number_32_is};

    ghost codec = { number_32 };

    fn write(&self, _alloc: Global, out: &mut Vec<u8>) -> Result<(), Memory> {
        out.extend_from_slice(&self.to_be_bytes())?;
        Ok(())
    }

    fn read(_alloc: Global, bytes: &[u8]) -> Result<(u32, &[u8]), CodeFault> {
        u32_at(bytes)
    }

    ghost laws = { number_32_is };
}

impl Coded for u64 {
    ghost use Rattle.value_bytes.specs.Codec.{number_64};
    ghost use Rattle.value_bytes.specs.NumberLaws.{number_64_is};

    ghost codec = { number_64 };

    fn write(&self, _alloc: Global, out: &mut Vec<u8>) -> Result<(), Memory> {
        out.extend_from_slice(&self.to_be_bytes())?;
        Ok(())
    }

    fn read(_alloc: Global, bytes: &[u8]) -> Result<(u64, &[u8]), CodeFault> {
        u64_at(bytes)
    }

    ghost laws = { number_64_is };
}

/// A number with a sign is written as its bits.
impl Coded for i16 {
    ghost use Rattle.value_bytes.specs.Codec.{signed_16};
    ghost use Rattle.value_bytes.specs.NumberLaws.{signed_16_is};

    ghost codec = { signed_16 };

    fn write(&self, _alloc: Global, out: &mut Vec<u8>) -> Result<(), Memory> {
        out.extend_from_slice(&self.cast_unsigned().to_be_bytes())?;
        Ok(())
    }

    fn read(_alloc: Global, bytes: &[u8]) -> Result<(i16, &[u8]), CodeFault> {
        let (number, rest) = u16_at(bytes)?;
        Ok((number.cast_signed(), rest))
    }

    ghost laws = { signed_16_is };
}

impl Coded for bool {
    ghost use Rattle.value_bytes.specs.Codec.{mark};
    ghost use Rattle.value_bytes.specs.NumberLaws.{mark_is};

    ghost codec = { mark };

    fn write(&self, _alloc: Global, out: &mut Vec<u8>) -> Result<(), Memory> {
        out.push(if *self { 1 } else { 0 })?;
        Ok(())
    }

    fn read(_alloc: Global, bytes: &[u8]) -> Result<(bool, &[u8]), CodeFault> {
        match bytes {
            [0, rest @ ..] => Ok((false, rest)),
            [1, rest @ ..] => Ok((true, rest)),
            _ => Err(CodeFault::NoValue),
        }
    }

    ghost laws = { mark_is };
}
