//! Identifiers: what may be true of who asks.
ghost use Rattle.std.specs.Prelude.{◌≡◌, ◌==◌, ◌<◌, ◌≤◌, drop, length, IfOk};
ghost use Rattle.std.specs.List.{starts_with};
ghost use Rattle.limit_ident.specs.Identifier.{hint_text, contains_text, matches, in_blocks, condition_holds, identified, identified_at};

use crate::address::{Address, Block};
use crate::known_asker::KnownAsker;
use crate::named::{Entries, Named};
use ps_time::asker::Asker;
use ps_time::duplicate::Duplicate;
use ps_time::items::Items;
use ps_time::memory::Memory;
use ps_time::text::Text;
use std::alloc::Global;
use std::marker::Model;

/// What is known of who asks.
#[derive(Clone, Copy)]
pub enum Hint {
    /// The address from which the task was posted.
    Requester,
    /// The name of the lead.
    Server,
}

/// How a hint is compared with a text.
#[derive(Clone, Copy)]
pub enum Style {
    /// It is the text.
    Exact,
    /// It contains the text.
    Contains,
}

/// When an identifier is true, before it is inverted.
pub enum Condition {
    Always,
    Hint {
        hint: Hint,
        style: Style,
        text: Text,
    },
    /// The requester reads as an address in one of the blocks.
    CidrList(Items<Block>),
}

// Written out, so that a drop elsewhere is one call, and not a case for each kind.
impl Drop for Condition {
    fn drop(self) {
        match self {
            Condition::Always => {}
            Condition::Hint {
                hint: _,
                style: _,
                text: _,
            } => {}
            Condition::CidrList(_) => {}
        }
    }
}

/// A condition on who asks; inverted it is true exactly where the condition is not.
#[derive(Drop)]
pub struct Identifier {
    pub condition: Condition,
    pub invert: bool,
}

/// The identifiers of a configuration, seen by contracts as a list.
#[derive(Drop)]
pub struct Identifiers {
    list: Items<Named<Identifier>>,
}

impl Model for Identifiers {
    ghost use Rattle.std.specs.Prelude.{List};
    ghost use Rattle.limit_ident.specs.declared.named.Named.{Named};
    ghost use Rattle.limit_ident.specs.declared.identifier.Identifier.{Identifier};

    ghost Value = { List (Named Identifier) };

    ghost view = { λ i. i.list };
}

impl Duplicate for Condition {
    fn duplicate(&self, alloc: Global) -> Result<Condition, Memory> {
        match self {
            Condition::Always => Ok(Condition::Always),
            Condition::Hint { hint, style, text } => Ok(Condition::Hint {
                hint: *hint,
                style: *style,
                text: text.copy(alloc)?,
            }),
            Condition::CidrList(blocks) => Ok(Condition::CidrList(blocks.copy(alloc)?)),
        }
    }
}

impl Duplicate for Identifier {
    fn duplicate(&self, alloc: Global) -> Result<Identifier, Memory> {
        Ok(Identifier {
            condition: self.condition.duplicate(alloc)?,
            invert: self.invert,
        })
    }
}

fn hint_text(hint: Hint, asker: &Asker) -> &str
    ensures { result.now ≡ hint_text hint asker.now }
{
    match hint {
        Hint::Requester => asker.requester.as_str(),
        Hint::Server => asker.server.as_str(),
    }
}

fn stands_at(text: &[u8], start: usize, part: &[u8]) -> bool
    requires { start ≤ length text.now }
    ensures { result ≡ starts_with ◌==◌ (drop start text.now) part.now }
{
    text[start..].starts_with(part)
}

fn contains(text: &[u8], part: &[u8]) -> bool
    ensures { result ≡ contains_text part.now text.now }
{
    for start in 0..text.len() {
        if stands_at(text, start, part) {
            return true;
        }
    }
    part.is_empty()
}

fn matches(style: Style, hint: &str, text: &str) -> bool
    ensures { result ≡ matches style hint.now text.now }
{
    match style {
        Style::Exact => hint == text,
        Style::Contains => contains(hint.as_bytes(), text.as_bytes()),
    }
}

fn is_in_blocks(address: Option<Address>, blocks: &[Block]) -> bool
    ensures { result ≡ in_blocks address blocks.now }
{
    let Some(address) = address else {
        return false;
    };
    for block in blocks {
        if block.contains(address) {
            return true;
        }
    }
    false
}

impl Condition {
    fn holds(&self, asker: &KnownAsker) -> bool
        ensures { result ≡ condition_holds asker.now self.now }
    {
        match self {
            Condition::Always => true,
            Condition::Hint { hint, style, text } => {
                matches(*style, hint_text(*hint, asker.asker()), text.as_str())
            }
            Condition::CidrList(blocks) => { is_in_blocks(asker.address(), blocks.as_slice()) }
        }
    }
}

impl Identifier {
    fn is_true(&self, asker: &KnownAsker) -> bool
        ensures { result ≡ identified asker.now self.now }
    {
        let holds = self.condition.holds(asker);
        if self.invert { !holds } else { holds }
    }
}

impl Identifiers {
    /// The identifiers of the entries that were read, in their order.
    pub fn from_entries(entries: Entries<Identifier>) -> Identifiers
        ensures { result ≡ entries }
    {
        Identifiers {
            list: entries.into_items(),
        }
    }

    pub(crate) fn as_slice(&self) -> &[Named<Identifier>]
        ensures { result.now ≡ self.now }
    {
        self.list.as_slice()
    }

    /// How many identifiers there are.
    pub fn len(&self) -> usize
        ensures { result ≡ length self.now }
    {
        self.list.len()
    }

    /// Whether the identifier at this place is true of who asks.
    pub fn identifies(&self, index: usize, asker: &KnownAsker) -> bool
        requires { index < length self.now }
        ensures { result ≡ identified_at self.now asker.now index }
    {
        self.list[index].value.is_true(asker)
    }

    /// Whether the identifier at this place is true of who asks; at a place past the end there is none, which isn't.
    pub(crate) fn is_true(&self, place: usize, asker: &KnownAsker) -> bool
        ensures { result ≡ identified_at self.now asker.now place }
    {
        place < self.len() && self.identifies(place, asker)
    }

    /// The same identifiers once more.
    pub fn copy(&self, alloc: Global) -> Result<Identifiers, Memory>
        ensures { IfOk result (λ made. made ≡ self.now) }
    {
        Ok(Identifiers {
            list: self.list.copy(alloc)?,
        })
    }
}
