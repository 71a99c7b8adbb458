//! The top call: psched over any source and sink.
ghost use Rattle.std.specs.Prelude.{◌≡◌, ◌≢◌, ◌≤◌, ◌<◌, ℕ, true, false, Some, None, IfOk, IfSome, IsErr};
ghost use Rattle.std.specs.Io.KnownBytes.{Appends};
ghost use Rattle.ps_ports.specs.All.{WrotePrefix};
ghost use Rattle.ps_ports.specs.Causes.{Rose};
ghost use Rattle.rehearsal_script.specs.Script.{script_of};
ghost use Rattle.rehearsal_model.specs.Moves.{Outcomes};
ghost use Rattle.psched_top.specs.Command.{asked, takes_input, wants_memory};
ghost use Rattle.psched_top.specs.Outcome.{outcome_of, outcome_of_script, status_of, text_of, unread_of};
ghost use Rattle.psched_top.specs.Psched.{Comes, CutShort, Exactly, Generated, IsChecked, IsGenerated, IsRehearsed, IsSafeReport, Reported, Told, Validated};

use crate::command::{Command, read_command};
use crate::limits::validate_bytes;
use crate::outcome::Outcome;
use archivers::by_name::Archivers;
use ps_ports::all::{read_all, write_all};
use ps_ports::fault::AllFault;
use ps_ports::sink::Sink;
use ps_ports::source::Source;
use ps_time::memory::Memory;
use ps_time::text::Text;
use rehearsal_generate::generate::generate;
use rehearsal_generate::rehearse::rehearse;
use rehearsal_script::read::read_script;
use rehearsal_script::script::ScriptFault;
use std::alloc::Global;

// The most bytes of an input.
const MAX_INPUT: u64 = 67_108_864;

// The status where the sink failed.
const WRITE_FAULT: u8 = 4;

/// The status where memory ran out.
pub const OUT_OF_MEMORY: u8 = 10;

fn rehearse_bytes<A: Archivers>(
    alloc: Global,
    bytes: &[u8],
    archivers: &mut A,
) -> Result<Outcome, Memory>
    ensures given { IfOk result (λ outcome. outcome ≡ outcome_of_script (A.comes archivers.old) (script_of bytes.now)) }
    ensures safe { IfOk result (λ outcome. status_of outcome ≡ 0 → IsSafeReport (A.comes archivers.old) bytes.now outcome) }
    ensures stays { A.comes archivers.new ≡ A.comes archivers.old }
{
    match read_script(alloc, bytes) {
        Ok(script) => Ok(Outcome::Report(rehearse(alloc, &script, archivers)?)),
        Err(ScriptFault::Memory) => Err(Memory),
        Err(fault) => {
            let line = format!(in alloc; "{fault}\n")?;
            Ok(Outcome::Refused(Text::from_string(line)))
        }
    }
}

// What a command comes to whose input didn't come whole.
fn without_input(fault: AllFault) -> Result<Outcome, Memory>
    ensures { IfOk result (λ outcome. unread_of fault ≡ Some outcome) }
{
    match fault {
        AllFault::TooLong => Ok(Outcome::TooLong),
        AllFault::ReadFault => Ok(Outcome::CannotRead),
        AllFault::Memory => Err(Memory),
    }
}

fn rehearse_source<S: Source, A: Archivers>(
    alloc: Global,
    source: &mut S,
    archivers: &mut A,
) -> Result<Outcome, Memory>
    ensures comes { IfOk result (Comes (A.comes archivers.old) (Some Command.Rehearse) (S.left source.old) (S.read_faults source.old) (S.read_faults source.new)) }
    ensures rehearsed { IfOk result (λ outcome. status_of outcome ≡ 0 → IsRehearsed (A.comes archivers.old) (S.left source.old) (S.left source.new) outcome) }
    ensures stays { A.comes archivers.new ≡ A.comes archivers.old }
    ensures later { S.read_faults source.old ≤ S.read_faults source.new }
    ensures kept { S.kept source.old source.new }
{
    match read_all(alloc, source, MAX_INPUT) {
        Ok(bytes) => rehearse_bytes(alloc, &bytes, archivers),
        Err(fault) => without_input(fault),
    }
}

fn validate_source<S: Source>(alloc: Global, source: &mut S) -> Result<Outcome, Memory>
    ensures comes { (comes : Outcomes) → IfOk result (Comes comes (Some Command.ValidateLimits) (S.left source.old) (S.read_faults source.old) (S.read_faults source.new)) }
    ensures validated { IfOk result (λ outcome. status_of outcome ≡ 0 → IsChecked (S.left source.old) (S.left source.new) outcome) }
    ensures later { S.read_faults source.old ≤ S.read_faults source.new }
    ensures kept { S.kept source.old source.new }
{
    match read_all(alloc, source, MAX_INPUT) {
        Ok(bytes) => validate_bytes(alloc, &bytes),
        Err(fault) => without_input(fault),
    }
}

fn generate_count(alloc: Global, count: u32) -> Result<Outcome, Memory>
    requires { count ≤ 2000 }
    ensures { IfOk result (IsGenerated count) }
{
    Ok(Outcome::Summary(generate(alloc, count)?))
}

fn run<S: Source, A: Archivers>(
    alloc: Global,
    words: &[String],
    source: &mut S,
    archivers: &mut A,
) -> Result<Outcome, Memory>
    ensures comes { IfOk result (Comes (A.comes archivers.old) (asked words.now) (S.left source.old) (S.read_faults source.old) (S.read_faults source.new)) }
    ensures rehearsed { IfOk result (λ outcome. status_of outcome ≡ 0 → asked words.now ≡ Some Command.Rehearse → IsRehearsed (A.comes archivers.old) (S.left source.old) (S.left source.new) outcome) }
    ensures validated { IfOk result (λ outcome. status_of outcome ≡ 0 → asked words.now ≡ Some Command.ValidateLimits → IsChecked (S.left source.old) (S.left source.new) outcome) }
    ensures generated { IfOk result (λ outcome. (count : ℕ) → asked words.now ≡ Some (Command.Generate count) → IsGenerated count outcome) }
    ensures memory { IsErr result → wants_memory words.now ≡ true }
    ensures unread { takes_input (asked words.now) ≡ false → source.new ≡ source.old }
    ensures untried { asked words.now ≢ Some Command.Rehearse → archivers.new ≡ archivers.old }
    ensures stays { A.comes archivers.new ≡ A.comes archivers.old }
    ensures later { S.read_faults source.old ≤ S.read_faults source.new }
    ensures kept { S.kept source.old source.new }
{
    match read_command(alloc, words)? {
        Some(Command::Rehearse) => rehearse_source(alloc, source, archivers),
        Some(Command::ValidateLimits) => validate_source(alloc, source),
        Some(Command::Generate { count }) => generate_count(alloc, count),
        Some(Command::Help) => Ok(Outcome::Usage),
        Some(Command::Version) => Ok(Outcome::Version),
        None => Ok(Outcome::WrongWords),
    }
}

fn tell<K: Sink>(sink: &mut K, outcome: &Outcome) -> u8
    ensures done { result ≢ 4 → result ≡ status_of outcome.now }
    ensures told { result ≢ 4 → Appends (K.written sink.old) (K.written sink.new) (text_of outcome.now) }
    ensures fault { result ≡ 4 → Rose (K.write_faults sink.old) (K.write_faults sink.new) }
    ensures prefix { result ≡ 4 → WrotePrefix (K.written sink.old) (K.written sink.new) (text_of outcome.now) }
    ensures status { result ≤ 4 }
    ensures later { K.write_faults sink.old ≤ K.write_faults sink.new }
    ensures kept { K.sink_kept sink.old sink.new }
{
    match write_all(sink, outcome.bytes()) {
        Ok(()) => outcome.status(),
        Err(_) => WRITE_FAULT,
    }
}

/// psched: does what the words ask for, with the source as its input and the sink as its output,
/// and answers its exit status. A rehearsal has these archivers. docs/specification/program.md states
/// the words and the statuses. The words leave out the program's name.
pub fn psched<S: Source, K: Sink, A: Archivers>(
    alloc: Global,
    words: &[String],
    source: &mut S,
    sink: &mut K,
    archivers: &mut A,
) -> u8
    // The text of what it comes to was written whole, with that status.
    ensures done { result ≤ 3 → Told (A.comes archivers.old) (asked words.now) (S.left source.old) (S.read_faults source.old) (S.read_faults source.new) (K.written sink.old) (K.written sink.new) result }

    // Status and text are these functions of what comes of attempts, the words and the whole input.
    ensures exact { result ≤ 2 → IfSome (S.left source.old) (λ held. Exactly (outcome_of (A.comes archivers.old) (asked words.now) held) (K.written sink.old) (K.written sink.new) result) }

    // A rehearsal that succeeds wrote the report on its script, whose worlds keep the laws.
    ensures rehearsed { result ≡ 0 → asked words.now ≡ Some Command.Rehearse → Reported (A.comes archivers.old) (S.left source.old) (S.left source.new) (K.written sink.old) (K.written sink.new) }

    // A check that succeeds wrote how many entries the configuration has.
    ensures validated { result ≡ 0 → asked words.now ≡ Some Command.ValidateLimits → Validated (S.left source.old) (S.left source.new) (K.written sink.old) (K.written sink.new) }

    // Generated work that is done wrote its summary, and its worlds keep the laws.
    ensures generated { result ≡ 0 → (count : ℕ) → asked words.now ≡ Some (Command.Generate count) → Generated count (K.written sink.old) (K.written sink.new) }

    ensures wrong_words { result ≡ 1 → asked words.now ≡ None }
    ensures read_fault { result ≡ 3 → Rose (S.read_faults source.old) (S.read_faults source.new) }
    ensures write_fault { result ≡ 4 → Rose (K.write_faults sink.old) (K.write_faults sink.new) }

    // A part of the front of the text that was due went out.
    ensures prefix { result ≡ 4 → CutShort (A.comes archivers.old) (asked words.now) (S.left source.old) (S.read_faults source.old) (S.read_faults source.new) (K.written sink.old) (K.written sink.new) }

    // Out of memory, in a command that reads or in `generate` alone. Nothing was written.
    ensures memory { 4 < result → result ≡ 10 }
    ensures memory_wanted { result ≡ 10 → wants_memory words.now ≡ true }
    ensures memory_unsaid { result ≡ 10 → sink.new ≡ sink.old }

    // The other commands, and words that aren't in the grammar, read nothing.
    ensures unread { takes_input (asked words.now) ≡ false → source.new ≡ source.old }

    // What comes of attempts stays, and only a rehearsal makes any.
    ensures archivers_stay { A.comes archivers.new ≡ A.comes archivers.old }
    ensures untried { asked words.now ≢ Some Command.Rehearse → archivers.new ≡ archivers.old }

    ensures read_later { S.read_faults source.old ≤ S.read_faults source.new }
    ensures write_later { K.write_faults sink.old ≤ K.write_faults sink.new }
    ensures kept { S.kept source.old source.new }
    ensures sink_kept { K.sink_kept sink.old sink.new }
{
    match run(alloc, words, source, archivers) {
        Ok(outcome) => tell(sink, &outcome),
        Err(Memory) => OUT_OF_MEMORY,
    }
}
