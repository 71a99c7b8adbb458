//! Configurations of limits: read from bytes, and told in a line.
ghost use Rattle.std.specs.Prelude.{◌≡◌, IfOk};
ghost use Rattle.limit_apply.specs.Read.{config_in};
ghost use Rattle.psched_top.specs.Limits.{counts_text, refusal_text};
ghost use Rattle.psched_top.specs.Outcome.{line, outcome_of_limits, status_of};
ghost use Rattle.psched_top.specs.Psched.{IsValid};

use crate::outcome::Outcome;
use limit_apply::limits::{Counts, Limits};
use limit_ident::fault::LimitFault;
use ps_time::memory::Memory;
use ps_time::text::Text;
use std::alloc::Global;

fn valid_line(alloc: Global, counts: Counts) -> Result<Text, Memory>
    ensures { IfOk result (λ text. text ≡ line (counts_text counts)) }
{
    let identifiers = counts.identifiers;
    let classifiers = counts.classifiers;
    let limits = counts.limits;
    let applications = counts.applications;
    let line = format!(in alloc;
        "valid: {identifiers} identifiers, {classifiers} classifiers, {limits} limits, {applications} applications\n"
    )?;
    Ok(Text::from_string(line))
}

fn refusal_line(alloc: Global, fault: &LimitFault) -> Result<Text, Memory>
    ensures { IfOk result (λ text. text ≡ line (refusal_text fault.now)) }
{
    let line = format!(in alloc; "limits: {fault}\n")?;
    Ok(Text::from_string(line))
}

/// What `validate-limits` comes to on these bytes: the line of the configuration's counts, or its
/// first refusal.
pub fn validate_bytes(alloc: Global, bytes: &[u8]) -> Result<Outcome, Memory>
    ensures given { IfOk result (λ outcome. outcome ≡ outcome_of_limits (config_in bytes.now)) }
    ensures valid { IfOk result (λ outcome. status_of outcome ≡ 0 → IsValid bytes.now outcome) }
{
    match Limits::from_text(alloc, bytes) {
        Ok(limits) => Ok(Outcome::Valid(valid_line(alloc, limits.counts())?)),
        Err(LimitFault::Memory) => Err(Memory),
        Err(fault) => Ok(Outcome::Refused(refusal_line(alloc, &fault)?)),
    }
}
