//! Whether bytes end inside the target of a request.
ghost use Rattle.std.specs.Prelude.{◌≡◌, ◌≤◌, length};
ghost use Rattle.std.specs.List.{prefix_len, list_all};
ghost use Rattle.httparse.specs.Grammar.{is_token_byte, is_uri_byte};
ghost use Rattle.ps_http.specs.Target.{skip_empty, in_target};

/// The bytes behind the empty lines at the front.
fn skip_empty(bytes: &[u8]) -> &[u8]
    ensures { result.now ≡ skip_empty bytes.now }
{
    let mut rest = bytes;
    loop {
        match rest {
            [b'\n', after @ ..] => rest = after,
            [b'\r', b'\n', after @ ..] => rest = after,
            _ => return rest,
        }
    }
}

// RFC 9110, 5.6.2: tchar.
fn is_token_byte(byte: u8) -> bool
    ensures { result ≡ is_token_byte byte }
{
    byte.is_ascii_alphanumeric() || b"!#$%&'*+-.^_`|~".contains(&byte)
}

fn method_len(line: &[u8]) -> usize
    ensures value { result ≡ prefix_len is_token_byte line.now }
    ensures within { result ≤ length line.now }
{
    for (i, byte) in line.iter().enumerate() {
        if !is_token_byte(*byte) {
            return i;
        }
    }
    line.len()
}

fn is_target(bytes: &[u8]) -> bool
    ensures { result ≡ list_all is_uri_byte bytes.now }
{
    for byte in bytes {
        if *byte <= b' ' || *byte == 0x7F {
            return false;
        }
    }
    true
}

/// Whether a method and a space have come, and then only bytes of a target. `httparse` tests a
/// target's UTF-8 at its end, so it doesn't say what it makes of such bytes.
pub fn ends_in_target(bytes: &[u8]) -> bool
    ensures { result ≡ in_target bytes.now }
{
    let line = skip_empty(bytes);
    let method = method_len(line);
    match &line[method..] {
        [b' ', target @ ..] => 0 < method && is_target(target),
        _ => false,
    }
}
