//! The command that the words of a call name.
ghost use Rattle.std.specs.Prelude.{◌≡◌, IfOk, IsErr, map, option_and_then, true};
ghost use Rattle.std.specs.String.{string_bytes};
ghost use Rattle.psched_top.specs.Command.{command_of, command_of_word, generate_of, is_generate, one_word};
ghost use Rattle.psched_top.specs.Words.{count_word};

use crate::words::count_word;
use ps_time::memory::Memory;
use ps_time::number::read_decimal;
use std::alloc::Global;

// The most posts of `generate`.
const MOST_POSTS: u64 = 2_000;

/// What psched is to do.
#[derive(Clone, Copy)]
pub enum Command {
    /// `rehearse`: runs a script and reports what its hosts did.
    Rehearse,
    /// `validate-limits`: tells whether a text is a configuration of limits.
    ValidateLimits,
    /// `generate N`: posts N tasks that are drawn, and tells what came of them.
    Generate {
        /// From 0 to 2000.
        count: u32,
    },
    /// `--help`: tells the words that psched takes.
    Help,
    /// `--version`: tells which version this is.
    Version,
}

fn read_word(word: &str) -> Option<Command>
    ensures { result ≡ command_of_word word.now }
{
    match word {
        "rehearse" => Some(Command::Rehearse),
        "validate-limits" => Some(Command::ValidateLimits),
        "--help" => Some(Command::Help),
        "--version" => Some(Command::Version),
        _ => None,
    }
}

fn read_one(words: &[String]) -> Option<Command>
    ensures { result ≡ one_word (map string_bytes words.now) }
{
    match words {
        [word] => read_word(word.as_str()),
        _ => None,
    }
}

fn is_generate(words: &[String]) -> bool
    ensures { result ≡ is_generate (map string_bytes words.now) }
{
    match words {
        [word, ..] => word.as_str() == "generate",
        [] => false,
    }
}

#[tactic(auto, unfolding(crate::specs::Command::generate_of))]
fn read_count(word: &str) -> Option<Command>
    ensures { result ≡ generate_of word.now }
{
    let count = read_decimal(word, 1, 10)?;
    if count > MOST_POSTS {
        return None;
    }
    Some(Command::Generate {
        count: count as u32,
    })
}

fn read_generate(alloc: Global, words: &[String]) -> Result<Option<Command>, Memory>
    ensures { IfOk result (λ command. command ≡ option_and_then generate_of (count_word (map string_bytes words.now))) }
{
    match count_word(alloc, words)? {
        Some(word) => Ok(read_count(word)),
        None => Ok(None),
    }
}

/// The command that these words name, if they are in the grammar. They leave out the program's name.
#[tactic(auto, unfolding(crate::specs::Command::command_of))]
pub fn read_command(alloc: Global, words: &[String]) -> Result<Option<Command>, Memory>
    ensures command { IfOk result (λ command. command ≡ command_of (map string_bytes words.now)) }
    ensures memory { IsErr result → is_generate (map string_bytes words.now) ≡ true }
{
    if is_generate(words) {
        return read_generate(alloc, words);
    }
    Ok(read_one(words))
}
