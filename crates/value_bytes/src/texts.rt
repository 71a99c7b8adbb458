//! Texts at the front of bytes.
ghost use Rattle.std.specs.Prelude.{◌≡◌, IfOk, IfSome, is_some, length, true};
ghost use Rattle.std.specs.Str.{is_utf8};
ghost use Rattle.value_bytes.specs.Gives.{Gives};
ghost use Rattle.value_bytes.specs.Reading.{bytes_at, partly_at, utf8_of};

use crate::fault::CodeFault;
use ps_time::text::Text;
use std::alloc::Global;

fn as_text(bytes: &[u8]) -> Option<&str>
    ensures utf8 { is_some result ≡ is_utf8 bytes.now }
    ensures text { IfSome result (λ text. text.now ≡ bytes.now) }
{
    match std::str::from_utf8(bytes) {
        Ok(text) => Some(text),
        Err(_) => None,
    }
}

/// The text of so many bytes with which these begin, and the bytes behind it.
pub fn text_of(alloc: Global, len: usize, bytes: &[u8]) -> Result<(Text, &[u8]), CodeFault>
    ensures value { Gives (λ x. (x.0, x.1.now)) result (partly_at utf8_of (bytes_at len) bytes.now) }
    ensures length { IfOk result (λ x. length x.0 ≡ len) }
    ensures utf8 { IfOk result (λ x. is_utf8 x.0 ≡ true) }
{
    if bytes.len() < len {
        return Err(CodeFault::NoValue);
    }
    let (front, rest) = bytes.split_at(len);
    match as_text(front) {
        None => Err(CodeFault::NoValue),
        Some(text) => Ok((Text::new(alloc, text)?, rest)),
    }
}
