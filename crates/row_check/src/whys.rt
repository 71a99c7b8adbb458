//! Why a row was closed.
ghost use Rattle.std.specs.Prelude.{◌↔◌, IfSome, IsTrue};
ghost use Rattle.run_states.specs.LawfulRow.{IsCause, IsDenial, IsWhy};
ghost use Rattle.row_check.specs.HasTests.{CauseTests, DenialTests, WhyTests};

use ps_time::moment::MAX_MOMENT;
use run_states::why::{Cause, Closing, Denial, Why};

fn is_denial(denial: &Denial) -> bool
    requires { DenialTests denial.now }
    ensures { IsTrue result ↔ IsDenial denial.now }
{
    match denial {
        Denial::Past(moment, start) => *moment <= MAX_MOMENT && *start <= MAX_MOMENT,
        Denial::Differs(kept, sent) => {
            kept.value().start <= MAX_MOMENT && sent.value().start <= MAX_MOMENT
        }
        _ => true,
    }
}

fn is_cause(cause: &Cause) -> bool
    requires { CauseTests cause.now }
    ensures { IsTrue result ↔ IsCause cause.now }
{
    match cause {
        Cause::Denied(_, denial) => is_denial(denial),
        _ => true,
    }
}

/// Whether what a peer sent, where it stands in the reason, is within bounds.
pub fn is_why(why: &Why) -> bool
    requires { WhyTests why.now }
    ensures { IsTrue result ↔ IsWhy why.now }
{
    match why {
        Why::Nonstart(cause) => is_cause(cause),
        _ => true,
    }
}

/// Whether the row was closed, if it was, for a reason within bounds.
pub fn has_closed(closed: &Option<Closing>) -> bool
    requires { IfSome closed.now (λ c. WhyTests c.why) }
    ensures { IsTrue result ↔ IfSome closed.now (λ c. IsWhy c.why) }
{
    match closed {
        None => true,
        Some(closing) => is_why(&closing.why),
    }
}
