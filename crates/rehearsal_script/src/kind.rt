//! Of which kind a line is.
ghost use Rattle.std.specs.Prelude.{◌≡◌};
ghost use Rattle.rehearsal_script.specs.Kind.{kind_by_first, kind_by_second, kind_by_third, kind_of};

use crate::fields::Fields;

/// The kinds of the lines that aren't skipped.
#[derive(Clone, Copy)]
pub enum Kind {
    Host,
    Tools,
    Limits,
    Book,
    Post,
    Get,
    Delete,
    Turn,
    Archive,
    Crash,
    Fail,
    Deliver,
    Repeat,
    Lose,
}

fn kind_by_first(word: &str) -> Option<Kind>
    ensures { result ≡ kind_by_first word.now }
{
    match word {
        "host" => Some(Kind::Host),
        "tools" => Some(Kind::Tools),
        "limits" => Some(Kind::Limits),
        "lose" => Some(Kind::Lose),
        _ => None,
    }
}

fn kind_by_second(word: &str) -> Option<Kind>
    ensures { result ≡ kind_by_second word.now }
{
    match word {
        "deliver" => Some(Kind::Deliver),
        "repeat" => Some(Kind::Repeat),
        _ => None,
    }
}

fn kind_by_third(word: &str) -> Option<Kind>
    ensures { result ≡ kind_by_third word.now }
{
    match word {
        "book" => Some(Kind::Book),
        "post" => Some(Kind::Post),
        "get" => Some(Kind::Get),
        "delete" => Some(Kind::Delete),
        "turn" => Some(Kind::Turn),
        "archive" => Some(Kind::Archive),
        "crash" => Some(Kind::Crash),
        "fail" => Some(Kind::Fail),
        _ => None,
    }
}

/// The kind by the line's word: its first field, or else its third, or else its second.
#[tactic(auto, unfolding(crate::specs::Kind::kind_of))]
pub fn kind_of(fields: &Fields<'_>) -> Option<Kind>
    ensures { result ≡ kind_of fields.now }
{
    let first = kind_by_first(fields.at(0));
    let third = kind_by_third(fields.at(2));
    let second = kind_by_second(fields.at(1));
    first.or(third).or(second)
}
