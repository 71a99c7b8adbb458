//! Numbers at the front of bytes.
ghost use Rattle.std.specs.Int.{w16, w32, w64};
ghost use Rattle.value_bytes.specs.Gives.{Gives};
ghost use Rattle.value_bytes.specs.Reading.{number_at};

use crate::fault::CodeFault;

/// The number that stands in the first two bytes, and the bytes behind it.
pub fn u16_at(bytes: &[u8]) -> Result<(u16, &[u8]), CodeFault>
    ensures { Gives (λ x. (x.0, x.1.now)) result (number_at w16 bytes.now) }
{
    if bytes.len() < 2 {
        return Err(CodeFault::NoValue);
    }
    let (front, rest) = bytes.split_at(2);
    let number = u16::from_be_bytes([front[0], front[1]]);
    Ok((number, rest))
}

/// The number that stands in the first four bytes, and the bytes behind it.
pub fn u32_at(bytes: &[u8]) -> Result<(u32, &[u8]), CodeFault>
    ensures { Gives (λ x. (x.0, x.1.now)) result (number_at w32 bytes.now) }
{
    if bytes.len() < 4 {
        return Err(CodeFault::NoValue);
    }
    let (front, rest) = bytes.split_at(4);
    let number = u32::from_be_bytes([front[0], front[1], front[2], front[3]]);
    Ok((number, rest))
}

/// The number that stands in the first eight bytes, and the bytes behind it.
pub fn u64_at(bytes: &[u8]) -> Result<(u64, &[u8]), CodeFault>
    ensures { Gives (λ x. (x.0, x.1.now)) result (number_at w64 bytes.now) }
{
    if bytes.len() < 8 {
        return Err(CodeFault::NoValue);
    }
    let (front, rest) = bytes.split_at(8);
    let number = u64::from_be_bytes([
        front[0], front[1], front[2], front[3], front[4], front[5], front[6], front[7],
    ]);
    Ok((number, rest))
}
