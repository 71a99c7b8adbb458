//! As what a line is read, by its first word.

/// As what a text is read.
#[derive(Clone, Copy, PartialEq, Eq)]
pub(crate) enum Reader {
    Heading,
    Up,
    Down,
    Length,
    Start,
    MomentText,
    DayText,
    LengthText,
    Host,
    Decimal,
    Class,
    Id,
    Json,
    Bytes,
    End,
    Members,
    Kept,
    Taken,
    Levels,
    Comment,
    Memory,
    Count,
    Integer,
    Text,
    Boolean,
    List,
    Address,
    Block,
    Limits,
    Asker,
    Unknown,
}

static READERS: [(&str, Reader); 30] = [
    ("#", Reader::Heading),
    ("up", Reader::Up),
    ("down", Reader::Down),
    ("length", Reader::Length),
    ("start", Reader::Start),
    ("moment-text", Reader::MomentText),
    ("day-text", Reader::DayText),
    ("length-text", Reader::LengthText),
    ("host", Reader::Host),
    ("decimal", Reader::Decimal),
    ("class", Reader::Class),
    ("id", Reader::Id),
    ("json", Reader::Json),
    ("bytes", Reader::Bytes),
    ("end", Reader::End),
    ("members", Reader::Members),
    ("kept", Reader::Kept),
    ("taken", Reader::Taken),
    ("levels", Reader::Levels),
    ("comment", Reader::Comment),
    ("memory", Reader::Memory),
    ("count", Reader::Count),
    ("integer", Reader::Integer),
    ("text", Reader::Text),
    ("boolean", Reader::Boolean),
    ("list", Reader::List),
    ("address", Reader::Address),
    ("block", Reader::Block),
    ("limits", Reader::Limits),
    ("asker", Reader::Asker),
];

fn found(readers: &[(&str, Reader)], word: &str) -> Reader {
    for (name, reader) in readers {
        if *name == word {
            return *reader;
        }
    }
    Reader::Unknown
}

pub(crate) fn reader_of(word: &str) -> Reader {
    found(&READERS, word)
}

/// The number before the first blank of a text, and what stands behind the blank.
pub(crate) fn after_number(text: &str) -> (Option<u64>, &str) {
    let (word, rest) = text.split_once(' ').unwrap_or((text, ""));
    (word.parse().ok(), rest)
}
