//! The words of `generate`, as clap reads them.
ghost use Rattle.std.specs.Prelude.{◌≡◌, IfOk, map, option_map};
ghost use Rattle.std.specs.String.{string_bytes};
ghost use Rattle.psched_top.specs.Words.{count_word};

use clap::error::ErrorKind;
use clap::{Arg, ArgAction, Command};
use ps_time::memory::Memory;
use std::alloc::Global;

/// The word that stands for the count; `None` where the words are wrong. The first of them is the command itself.
pub fn count_word<'a>(alloc: Global, words: &'a [String]) -> Result<Option<&'a str>, Memory>
    ensures { IfOk result (λ word. option_map (λ w. w.now) word ≡ count_word (map string_bytes words.entry.now)) }
{
    let count = Arg::new(alloc, "count")
        .action(ArgAction::Set)
        .required(true);
    let plain = Command::new(alloc, "generate").disable_help_flag(true);
    let Ok(command) = plain.arg(count) else {
        return Err(Memory);
    };
    match command.try_get_matches_from(words) {
        Ok(matches) => Ok(matches.get_str("count")),
        Err(error) => match error.kind() {
            ErrorKind::OutOfMemory => Err(Memory),
            _ => Ok(None),
        },
    }
}
