//! The end of a head.

/// Whether a line that isn't the first is empty, which ends a head. Lines end in CR LF or LF.
pub fn has_empty_line(bytes: &[u8]) -> bool {
    bytes.windows(2).any(|pair| pair == b"\n\n".as_slice())
        || bytes.windows(3).any(|three| three == b"\n\r\n".as_slice())
}
