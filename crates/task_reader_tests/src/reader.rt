//! As what a line is read, by its first word; words of a line.

/// As what a text is read.
#[derive(Clone, Copy, PartialEq, Eq)]
pub(crate) enum Reader {
    Heading,
    Test,
    Bound,
    Measure,
    Same,
    Kinds,
    Merge,
    Policy,
    Attempts,
    Walk,
    Result,
    Task,
    Held,
    Fails,
    Archivers,
    Parts,
    Tool,
    Outcome,
    Choice,
    ToolBytes,
    ToolNames,
    Tools,
    Unknown,
}

static READERS: [(&str, Reader); 22] = [
    ("#", Reader::Heading),
    ("test", Reader::Test),
    ("bound", Reader::Bound),
    ("measure", Reader::Measure),
    ("same", Reader::Same),
    ("kinds", Reader::Kinds),
    ("merge", Reader::Merge),
    ("policy", Reader::Policy),
    ("attempts", Reader::Attempts),
    ("walk", Reader::Walk),
    ("result", Reader::Result),
    ("task", Reader::Task),
    ("held", Reader::Held),
    ("fails", Reader::Fails),
    ("archivers", Reader::Archivers),
    ("parts", Reader::Parts),
    ("tool", Reader::Tool),
    ("outcome", Reader::Outcome),
    ("choice", Reader::Choice),
    ("tool-bytes", Reader::ToolBytes),
    ("tool-names", Reader::ToolNames),
    ("tools", Reader::Tools),
];

/// What a table has for a word, else the other value.
pub(crate) fn found<T: Copy>(table: &[(&str, T)], word: &str, other: T) -> T {
    for (name, value) in table {
        if *name == word {
            return *value;
        }
    }
    other
}

pub(crate) fn reader_of(word: &str) -> Reader {
    found(&READERS, word, Reader::Unknown)
}

/// What stands before the first blank, and behind it.
pub(crate) fn cut(text: &str) -> (&str, &str) {
    text.split_once(' ').unwrap_or((text, ""))
}
