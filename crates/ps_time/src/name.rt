//! Names of hosts.
ghost use Rattle.std.specs.Prelude.{◌≡◌};
ghost use Rattle.std.specs.List.{list_all};
ghost use Rattle.ps_time.specs.Name.{is_name, is_name_start, is_name_byte};

fn starts_name(b: u8) -> bool
    ensures { result ≡ is_name_start b }
{
    b.is_ascii_lowercase() || b.is_ascii_digit()
}

fn is_in_name(b: u8) -> bool
    ensures { result ≡ is_name_byte b }
{
    starts_name(b) || b == b'.' || b == b'-'
}

/// Whether a host may have this name: 1 to 63 of `a` to `z`, `0` to `9`, `.` and `-`, the first a
/// letter or digit.
pub fn is_host_name(name: &str) -> bool
    ensures { result ≡ is_name name.now }
{
    match name.as_bytes() {
        [] => false,
        [first, rest @ ..] => starts_name(*first) && rest.len() <= 62 && all_in_name(rest),
    }
}

fn all_in_name(bytes: &[u8]) -> bool
    ensures { result ≡ list_all is_name_byte bytes.now }
{
    for b in bytes {
        if !is_in_name(*b) {
            return false;
        }
    }
    true
}
