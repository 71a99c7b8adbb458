//! A rehearsal with archivers of its own: what they make of attempts is reported, and each attempt is made once.
ghost use Rattle.std.specs.Prelude.{◌≡◌, ◌≢◌, Some, codes};
ghost use Rattle.ps_doors.specs.Archiver.{HasLength};
ghost use Rattle.ps_doors.specs.declared.archiver.Tried.TheVariants.{Failed, Memory as NoMemory};
ghost use Rattle.rehearsal_script.specs.Lawful.{IsLawful};

use crate::scripts::{lines, script};
use archivers::by_name::Archivers;
use ps_doors::archiver::Tried;
use ps_time::key::RunKey;
use ps_time::memory::Memory;
use ps_time::text::Text;
use psched_rehearse::rehearse::rehearse;
use rehearsal_script::script::Script;
use std::alloc::Global;
use std::process::Abort;
use std::test::Fail;

/// Archivers that fail the first attempt and ask for a wait of 7 seconds then, whatever their name.
#[derive(Drop)]
struct Slow {
    attempts: u64,
}

fn failed(alloc: Global) -> Tried
    ensures outcome { result ≢ NoMemory → result ≡ Failed (codes "slow") (Some 7) }
    ensures retry { HasLength result }
{
    match Text::new(alloc, "slow") {
        Ok(error) => Tried::Failed {
            error,
            retry: Some(7),
        },
        Err(Memory) => Tried::Memory,
    }
}

impl Archivers for Slow {
    ghost use Rattle.std.specs.Prelude.{Some, codes, if◌then◌else◌, nat_lt};
    ghost use Rattle.ps_doors.specs.declared.archiver.Tried.TheVariants.{Failed, Succeeded};

    ghost comes = { λ _ archiver settings tried. if nat_lt 0 tried then Succeeded else Failed (codes "slow") (Some 7) };

    fn attempt(
        &mut self,
        alloc: Global,
        _archiver: &str,
        _key: RunKey,
        tried: u32,
        _settings: &str,
        _merged: &str,
    ) -> Tried {
        self.attempts = self.attempts.saturating_add(1);
        if tried > 0 {
            return Tried::Succeeded;
        }
        failed(alloc)
    }
}

const BEGIN: &str =
    r#"host a 1|host b 2|1000 a post 10.0.0.9 {"archives":[{"archiver":"bitbucket","data":{"retry-policy":[{"attempts":2,"wait":"PT1S"}]}}],"test":{"spec":{"duration":"PT10S"},"type":"idle"}}|1001 a turn|1002 a turn|1007 a turn|1017 a turn|"#;

const BEGUN: &str =
    r#"1 ok|2 ok|3 200 "http://a/pscheduler/tasks/00010000-0001-8000-8000-000000000000"|4 changes 1|5 changes 1|6 changes 1|7 changes 2|"#;

const TABLE: &str = "|a 1007 1017 background 0 finished 00010000-0001-8001-8000-000000000000|";

/// The lines behind the others, what is told of them, and how many attempts are made.
type Case = (&'static str, &'static str, u64);

static CASES: [Case; 3] = [
    (
        "1017 a archive|1023 a archive|1024 a archive",
        "8 failed again at 1024|9 nothing due|10 succeeded",
        2,
    ),
    // Another host is armed.
    (
        "1017 b crash 0 old|1017 a archive|1024 a archive",
        "8 armed|9 failed again at 1024|10 succeeded",
        2,
    ),
    // The host itself is: what came of the attempt is lost with its step.
    (
        "1017 a crash 1 old|1017 a archive|1017 a archive|1024 a archive",
        "8 armed|9 crashed|10 failed again at 1024|11 succeeded",
        3,
    ),
];

fn report_is(
    alloc: Global,
    script: &Script,
    wanted: &[u8],
    archivers: &mut Slow,
) -> Result<bool, Memory>
    requires { IsLawful script.now }
{
    let report = rehearse(alloc, script, archivers)?;
    Ok(report.as_slice() == wanted)
}

fn attempts_of(alloc: Global, asked: &str, told: &str) -> Result<Option<u64>, Fail> {
    let text = format!(in alloc; "{BEGIN}{asked}")?;
    let script = script(alloc, text.as_str())?;
    let report = format!(in alloc; "{BEGUN}{told}{TABLE}")?;
    let wanted = lines(alloc, report.as_str())?;
    let mut archivers = Slow { attempts: 0 };
    if report_is(alloc, &script, wanted.as_slice(), &mut archivers)? {
        return Ok(Some(archivers.attempts));
    }
    Ok(None)
}

fn check_attempts(rt: &impl Abort, alloc: Global, cases: &[Case]) -> Result<(), Fail> {
    for (asked, told, attempts) in cases {
        let made = attempts_of(alloc, asked, told)?;
        assert!(rt; made == Some(*attempts), "{asked}");
    }
    Ok(())
}

#[test]
fn an_attempt_is_made_once(rt: HostRuntime) -> Result<(), Fail> {
    check_attempts(&rt, rt.alloc(), &CASES)
}
