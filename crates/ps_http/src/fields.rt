//! The fields of a head, found by their names.
ghost use Rattle.std.specs.Prelude.{◌≡◌, ◌≤◌, length, All, IfOk, Some, codes};
ghost use Rattle.std.specs.List.{slice_get};
ghost use Rattle.std.specs.Option.{option_map};
ghost use Rattle.std.specs.Str.{str_eq_ignore_ascii_case};
ghost use Rattle.httparse.specs.Spans.{IsHeaderWithin, header_bytes};
ghost use Rattle.ps_time.specs.Number.{decimal_of};
ghost use Rattle.ps_http.specs.Fields.{values_of, is_close, are_peers, peer_of, is_key, asks_close, fields_in, length_of, first_peer, mark};

use crate::message::PeerMark;
use httparse::spans::HeaderSpan;
use ps_time::memory::Memory;
use ps_time::number::read_decimal;
use ps_time::text::Text;
use std::alloc::Global;
use std::str;

fn is_named(bytes: &[u8], span: &HeaderSpan, name: &[u8]) -> bool
    requires { IsHeaderWithin (length bytes.now) span.now }
    ensures { result ≡ str_eq_ignore_ascii_case (header_bytes bytes.now span.now).0 name.now }
{
    span.name.of(bytes).eq_ignore_ascii_case(name)
}

/// How many fields have the name.
pub fn count_named(bytes: &[u8], spans: &[HeaderSpan], name: &[u8]) -> usize
    requires { All (IsHeaderWithin (length bytes.now)) spans.now }
    ensures { result ≡ length (values_of name.now (fields_in bytes.now spans.now)) }
{
    let mut count = 0;
    for span in spans {
        if is_named(bytes, span, name) {
            count += 1;
        }
    }
    count
}

/// The value of the first field with the name.
pub fn first_named<'a>(bytes: &'a [u8], spans: &[HeaderSpan], name: &[u8]) -> Option<&'a [u8]>
    requires { All (IsHeaderWithin (length bytes.now)) spans.now }
    ensures { option_map (λ v. v.now) result ≡ slice_get (values_of name.now (fields_in bytes.now spans.now)) 0 }
{
    for span in spans {
        if is_named(bytes, span, name) {
            return Some(span.value.of(bytes));
        }
    }
    None
}

fn is_close(value: &[u8]) -> bool
    ensures { result ≡ is_close value.now }
{
    value.eq_ignore_ascii_case(b"close")
}

/// Whether the connection is to be closed after the message.
pub fn asks_close(minor: u8, bytes: &[u8], spans: &[HeaderSpan]) -> bool
    requires { All (IsHeaderWithin (length bytes.now)) spans.now }
    ensures { result ≡ asks_close minor (fields_in bytes.now spans.now) }
{
    if minor == 0 {
        return true;
    }
    for span in spans {
        if is_named(bytes, span, b"connection") && is_close(span.value.of(bytes)) {
            return true;
        }
    }
    false
}

/// The number of 1 to `most` digits.
fn decimal(value: &[u8], most: usize) -> Option<u64>
    requires { most ≤ 19 }
    ensures { result ≡ decimal_of 1 most value.now }
{
    match str::from_utf8(value) {
        Ok(text) => read_decimal(text, 1, most),
        Err(_) => None,
    }
}

fn is_key(key: &[u8]) -> bool
    ensures { result ≡ is_key key.now }
{
    if key.is_empty() || 64 < key.len() {
        return false;
    }
    for b in key {
        if !b.is_ascii_alphanumeric() {
            return false;
        }
    }
    true
}

/// What Content-Length fields say of the body's length, if there is one; `None` where they are
/// malformed.
pub fn said_length(bytes: &[u8], spans: &[HeaderSpan]) -> Option<Option<u64>>
    requires { All (IsHeaderWithin (length bytes.now)) spans.now }
    ensures { result ≡ length_of (values_of (codes "content-length") (fields_in bytes.now spans.now)) }
{
    match first_named(bytes, spans, b"content-length") {
        None => Some(None),
        Some(value) => {
            if 1 < count_named(bytes, spans, b"content-length") {
                return None;
            }
            let length = decimal(value, 9)?;
            Some(Some(length))
        }
    }
}

/// The number and the key of a peer's mark.
fn read_mark<'a>(value: &'a [u8]) -> Option<(u16, &'a str)>
    ensures { option_map (λ m. mark m.0 m.1.now) result ≡ peer_of value.now }
{
    let Ok(text) = str::from_utf8(value) else {
        return None;
    };
    let (number, key) = text.split_once(' ')?;
    let number = read_decimal(number, 1, 5)?;
    if 65_535 < number || !is_key(key.as_bytes()) {
        return None;
    }
    Some((number as u16, key))
}

/// Whether each `ps-peer` field is well formed.
pub fn are_peers(bytes: &[u8], spans: &[HeaderSpan]) -> bool
    requires { All (IsHeaderWithin (length bytes.now)) spans.now }
    ensures { result ≡ are_peers (values_of (codes "ps-peer") (fields_in bytes.now spans.now)) }
{
    for span in spans {
        if is_named(bytes, span, b"ps-peer") && read_mark(span.value.of(bytes)).is_none() {
            return false;
        }
    }
    true
}

/// The mark of the first `ps-peer` field.
pub fn peer(alloc: Global, bytes: &[u8], spans: &[HeaderSpan]) -> Result<Option<PeerMark>, Memory>
    requires { All (IsHeaderWithin (length bytes.now)) spans.now }
    ensures { IfOk result (λ mark. mark ≡ first_peer (values_of (codes "ps-peer") (fields_in bytes.now spans.now))) }
{
    let Some(value) = first_named(bytes, spans, b"ps-peer") else {
        return Ok(None);
    };
    match read_mark(value) {
        Some((number, key)) => {
            let key = Text::new(alloc, key)?;
            Ok(Some(PeerMark { number, key }))
        }
        None => Ok(None),
    }
}
