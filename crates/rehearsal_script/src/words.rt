//! Numbers and images in the fields of a script.
ghost use Rattle.std.specs.Prelude.{◌≡◌, ◌≤◌, ◌≤ℤ◌, pos, option_map, IfSome};
ghost use Rattle.rehearsal_script.specs.Words.{number_of, moment_of, numeral_of, image_of, priority_of};

use ps_disks::image::Image;
use ps_time::moment::{MAX_MOMENT, Moment};
use ps_time::number::read_decimal;

/// The number of 1 to 10 digits, leading zeros among them, where it lies from `low` to `high`.
#[tactic(auto, unfolding(crate::specs::Words::number_of))]
pub fn read_number(field: &str, low: u64, high: u64) -> Option<u64>
    ensures value { result ≡ number_of low high field.now }
    ensures bounded { IfSome result (λ n. n ≤ high) }
{
    let number = read_decimal(field, 1, 10)?;
    if low <= number && number <= high {
        Some(number)
    } else {
        None
    }
}

/// A moment in seconds since 1970 UTC: 1 to 10 digits, at most `MAX_MOMENT`.
pub fn read_moment(field: &str) -> Option<Moment>
    ensures { result ≡ moment_of field.now }
{
    read_number(field, 0, MAX_MOMENT)
}

/// The number of a message, or of a call: any one of 1 to 10 digits.
#[tactic(auto, unfolding(crate::specs::Words::numeral_of))]
pub fn read_numeral(field: &str) -> Option<u64>
    ensures { result ≡ numeral_of field.now }
{
    read_decimal(field, 1, 10)
}

/// What a crash leaves of a write: `old`, `new` or `torn`.
pub fn read_image(field: &str) -> Option<Image>
    ensures { result ≡ image_of field.now }
{
    match field {
        "old" => Some(Image::Old),
        "new" => Some(Image::New),
        "torn" => Some(Image::Torn),
        _ => None,
    }
}

/// The priority, from -1000 to 1000: `-` stands before the digits of a negative one.
pub fn read_priority(field: &str) -> Option<i16>
    ensures { result ≡ priority_of field.now }
{
    match field.strip_prefix('-') {
        Some(digits) => Some(-read_size(digits)?),
        None => read_size(field),
    }
}

// The size of a priority.
fn read_size(field: &str) -> Option<i16>
    ensures value { result ≡ option_map (λ n. pos n) (number_of 0 1000 field.now) }
    ensures least { IfSome result (λ z. pos 0 ≤ℤ z) }
    ensures most { IfSome result (λ z. z ≤ℤ pos 1000) }
{
    let size = read_number(field, 0, 1000)?;
    Some(size as i16)
}
