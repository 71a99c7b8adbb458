//! The text of a length.
ghost use Rattle.std.specs.Prelude.{◌≡◌, ◌++◌, ◌≤◌, ℕ, Ok, IfOk, OnOk};
ghost use Rattle.std.specs.String.{string_bytes};
ghost use Rattle.ps_time.specs.Length.{clock_part, counted, length_of, length_text_of};

use crate::memory::Memory;
use crate::moment::{Length, MAX_LENGTH};
use crate::text::Text;
use itoa::Buffer;
use std::alloc::Global;

/// The text of a length: its days, hours, minutes and seconds, without those that are 0; `PT0S` for 0.
pub fn length_text(alloc: Global, length: Length) -> Result<Text, Memory>
    ensures { IfOk result (λ text. text ≡ length_text_of length) }
{
    let mut out = String::new(alloc);
    push_length_text(&mut out, length)?;
    Ok(Text::from_string(out))
}

/// Puts the text of a length behind what was written before.
#[tactic(auto, unfolding(crate::specs::Length::length_text_of))]
pub fn push_length_text(out: &mut String, length: Length) -> Result<(), Memory>
    ensures { OnOk result (string_bytes out.new ≡ string_bytes out.old ++ length_text_of length) }
{
    if length == 0 {
        out.push_str("PT0S")?;
        return Ok(());
    }
    out.push_str("P")?;
    push_count(out, length / 86_400, "D")?;
    push_clock(out, length % 86_400)
}

// The part of a second of the day, nothing for the first.
fn push_clock(out: &mut String, second: u64) -> Result<(), Memory>
    ensures { OnOk result (string_bytes out.new ≡ string_bytes out.old ++ clock_part second) }
{
    if second == 0 {
        return Ok(());
    }
    out.push_str("T")?;
    push_count(out, second / 3_600, "H")?;
    push_count(out, second % 3_600 / 60, "M")?;
    push_count(out, second % 60, "S")
}

// A count with its designator, nothing for 0.
fn push_count(out: &mut String, count: u64, designator: &str) -> Result<(), Memory>
    ensures { OnOk result (string_bytes out.new ≡ string_bytes out.old ++ counted count designator.now) }
{
    if count == 0 {
        return Ok(());
    }
    let mut buffer = Buffer::new();
    out.push_str(buffer.format(count))?;
    out.push_str(designator)?;
    Ok(())
}

/// A law: the text of every length is read again with its value.
pub fn law_length_text()
    ensures { (length : ℕ) → length ≤ MAX_LENGTH → length_of (length_text_of length) ≡ Ok length }
{}
