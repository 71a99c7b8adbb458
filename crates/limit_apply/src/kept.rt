//! What every configuration of limits keeps.
ghost use Rattle.std.specs.Prelude.{◌<◌, ◌^◌, All};
ghost use Rattle.limit_apply.specs.Read.{IsKept};

use crate::limits::Limits;

/// A law: each of them is read again from its text.
pub fn law_kept(epochs: &[Limits])
    ensures { All IsKept epochs.now }
{
    for limits in epochs {
        law_one_kept(limits);
    }
}

/// A law: it is read again from its text.
pub fn law_one_kept(limits: &Limits)
    ensures { IsKept limits.now }
{
    let counts = limits.counts();
    law_counted(
        counts.identifiers,
        counts.classifiers,
        counts.limits,
        counts.applications,
    );
    let _known = limits.text();
}

fn law_counted(identifiers: u32, classifiers: u32, limits: u32, applications: u32)
    ensures { (identifiers < 2 ^ 32) × (classifiers < 2 ^ 32) × (limits < 2 ^ 32) × (applications < 2 ^ 32) }
{}
