//! Pictures of texts, as ISO 8601 shows its formats, and numbers in them.
ghost use Rattle.std.specs.Prelude.{◌≡◌, ◌≤◌, ◌<◌, true, length, IfSome, IsTrue, option_map};
ghost use Rattle.std.specs.Str.{all_ascii_digits};
ghost use Rattle.std.specs.Str.Parse.{digits_value};
ghost use Rattle.ps_time.specs.Picture.{shows, begins_as, is_as, leading_digits, leading_number, fraction_at};

/// Whether a mark of a picture shows the byte: `0` shows any digit, `T` and `Z` also the small letter,
/// `+` also `-`, and any other mark itself.
fn shows_byte(mark: u8, byte: u8) -> bool
    ensures { result ≡ shows mark byte }
{
    match mark {
        b'0' => byte.is_ascii_digit(),
        b'T' | b'Z' => byte == mark || byte == mark + 32,
        b'+' => byte == b'+' || byte == b'-',
        _ => byte == mark,
    }
}

/// Whether the text begins as the picture shows.
pub(crate) fn starts_as(picture: &[u8], text: &[u8]) -> bool
    ensures value { result ≡ begins_as picture.now text.now }
    ensures long { IsTrue result → length picture.now ≤ length text.now }
{
    if text.len() < picture.len() {
        return false;
    }
    for (i, mark) in picture.iter().enumerate() {
        if !shows_byte(*mark, text[i]) {
            return false;
        }
    }
    true
}

/// Whether the whole text is as the picture shows.
pub(crate) fn matches(picture: &[u8], text: &[u8]) -> bool
    ensures { result ≡ is_as picture.now text.now }
{
    text.len() == picture.len() && starts_as(picture, text)
}

/// The number that at most nine digits write.
pub(crate) fn number(digits: &[u8]) -> u64
    requires digits { all_ascii_digits digits.now ≡ true }
    requires short { length digits.now ≤ 9 }
    ensures value { result ≡ digits_value 10 digits.now }
    ensures bound { result < 1_000_000_000 }
{
    let mut value = 0;
    for digit in digits {
        value = value * 10 + u64::from(*digit - b'0');
    }
    value
}

fn count_leading(text: &[u8]) -> usize
    ensures { result ≡ leading_digits text.now }
{
    text.iter()
        .take(9)
        .take_while(|b| b.is_ascii_digit())
        .count()
}

/// The number that the text begins with, of one to nine digits, and what follows it.
pub(crate) fn split_number(text: &[u8]) -> Option<(u64, &[u8])>
    ensures value { option_map (λ found. (found.0, found.1.now)) result ≡ leading_number text.now }
    ensures bound { IfSome result (λ found. found.0 < 1_000_000_000) }
{
    let count = count_leading(text);
    if count == 0 {
        return None;
    }
    let (digits, rest) = text.split_at(count);
    Some((number(digits), rest))
}

/// The digits of a decimal fraction that the text begins with, as a number, and what follows them; 0
/// without one.
#[tactic(auto, unfolding(crate::specs::Picture::fraction_at))]
pub(crate) fn split_fraction(text: &[u8]) -> (u64, &[u8])
    ensures { (result.0, result.1.now) ≡ fraction_at text.now }
{
    if starts_as(b".", text) || starts_as(b",", text) {
        split_number(&text[1..]).unwrap_or((0, text))
    } else {
        (0, text)
    }
}
