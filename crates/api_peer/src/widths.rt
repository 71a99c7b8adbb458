//! The widths of numbers.
ghost use Rattle.ps_time.specs.Id.{InRange};
ghost use Rattle.ps_time.specs.declared.id.Id.TheVariants.{Run};
ghost use Rattle.api_peer.specs.Widths.{HasDenialWidths, HasVerdictWidth, HasWidths};

use host_model::reply::Reply;
use ps_time::asker::Verdict;
use ps_time::key::RunKey;
use run_states::why::Denial;

fn verdict_width(verdict: Verdict)
    ensures { HasVerdictWidth verdict }
{
    match verdict {
        Verdict::Permitted(_) => {}
        Verdict::Stopped(_index) => {}
        Verdict::Exhausted => {}
        Verdict::AboveCeiling(_ceiling) => {}
    }
}

fn key_widths(key: RunKey)
    ensures { InRange (Run key) }
{
    let _lead = key.lead;
    let _task = key.task;
    let _number = key.number;
    let _attempt = key.attempt;
}

fn denial_widths(denial: &Denial)
    ensures { HasDenialWidths denial.now }
{
    match denial {
        Denial::Limits(verdict) => verdict_width(*verdict),
        Denial::Conflict(key) => key_widths(*key),
        Denial::Full(_, count) => {
            let _count = *count;
        }
        _ => {}
    }
}

/// The numbers of a reply have their widths, as those of every value have. Does nothing.
pub fn reply_widths(reply: &Reply)
    ensures { HasWidths reply.now }
{
    match reply {
        Reply::Denied(denial) => denial_widths(denial),
        _ => {}
    }
}
