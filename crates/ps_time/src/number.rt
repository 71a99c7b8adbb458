//! Decimal digits.
ghost use Rattle.std.specs.Prelude.{◌≡◌, ◌≤◌};
ghost use Rattle.std.specs.Str.{all_ascii_digits};
ghost use Rattle.ps_time.specs.Number.{decimal_of};

/// The value of `least` to `most` decimal digits, leading zeros among them; `None` exactly for every
/// other text.
pub fn read_decimal(text: &str, least: usize, most: usize) -> Option<u64>
    requires some { 1 ≤ least }
    requires fits { most ≤ 19 }
    ensures { result ≡ decimal_of least most text.now }
{
    if text.len() < least || most < text.len() || !all_digits(text.as_bytes()) {
        return None;
    }
    text.parse::<u64>().ok()
}

fn all_digits(bytes: &[u8]) -> bool
    ensures { result ≡ all_ascii_digits bytes.now }
{
    for b in bytes {
        if !b.is_ascii_digit() {
            return false;
        }
    }
    true
}
