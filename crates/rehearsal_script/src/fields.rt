//! The fields of a line.
ghost use Rattle.std.specs.Prelude.{◌≡◌, ◌≤◌, ◌<◌, ◌==◌, [], length, map, drop, IfOk, slice_index_or};
ghost use Rattle.std.specs.List.{join_with_byte, slice_split};

use ps_time::items::Items;
use ps_time::memory::Memory;
use ps_time::text::Text;
use std::alloc::Global;
use std::marker::Model;

/// The parts of a text between separators.
#[derive(Drop)]
pub struct Fields<'a> {
    parts: Vec<&'a str>,
}

impl<'a> Model for Fields<'a> {
    ghost use Rattle.std.specs.Prelude.{ℕ, List, map};

    ghost Value = { List (List ℕ) };

    ghost view = { λ s. map (λ x. x.now) s.parts.items };
}

// The parts with a space between each two.
fn spaced(alloc: Global, parts: &[&str]) -> Result<Text, Memory>
    ensures { IfOk result (λ text. text ≡ join_with_byte 32 (map (λ x. x.now) parts.now)) }
{
    Ok(Text::from_string(parts.join(alloc, " ")?))
}

fn texts_of(alloc: Global, parts: &[&str]) -> Result<Items<Text>, Memory>
    ensures { IfOk result (λ texts. texts ≡ map (λ x. x.now) parts.now) }
{
    let mut texts = Items::new(alloc);
    for part in parts {
        texts.push(Text::new(alloc, part)?)?;
    }
    Ok(texts)
}

impl<'a> Fields<'a> {
    /// The parts of a text between separators, one at least; the separator is ASCII.
    pub fn cut(alloc: Global, text: &'a str, separator: char) -> Result<Fields<'a>, Memory>
        requires { separator < 128 }
        ensures { IfOk result (λ s. s ≡ slice_split (λ b. b == separator) text.now) }
    {
        Ok(Fields {
            parts: text.split(separator).collect(alloc)?,
        })
    }

    /// How many fields there are.
    pub fn len(&self) -> usize
        ensures { result ≡ length self.now }
    {
        self.parts.len()
    }

    /// The field at this place, counted from 0; an empty one where there is none.
    pub fn at(&self, place: usize) -> &'a str
        ensures { result.now ≡ slice_index_or self.now place [] }
    {
        if place < self.parts.len() {
            self.parts[place]
        } else {
            ""
        }
    }

    /// The fields from this place on with a space between each two: of a line that was cut at spaces, its
    /// rest.
    pub fn rest(&self, alloc: Global, place: usize) -> Result<Text, Memory>
        requires { place ≤ length self.now }
        ensures { IfOk result (λ text. text ≡ join_with_byte 32 (drop place self.now)) }
    {
        spaced(alloc, &self.parts[place..])
    }

    /// The fields, each a text of its own.
    pub fn texts(&self, alloc: Global) -> Result<Items<Text>, Memory>
        ensures { IfOk result (λ texts. texts ≡ self.now) }
    {
        texts_of(alloc, self.parts.as_slice())
    }
}
