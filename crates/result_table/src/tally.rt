//! Counts of records by a key.
ghost use Rattle.std.specs.Prelude.{◌≡◌, OnOk, OnErr};
ghost use Rattle.result_table.specs.Tally.{counted_in, counted_one};

use crate::record::Record;
use ps_time::memory::Memory;
use std::alloc::Global;
use std::collections::BTreeMap;
use std::fmt;

/// How many records there are, how many of them are good, and how many aren't. A count stands still at the greatest `u64`.
#[derive(Clone, Copy)]
pub(crate) struct Counts {
    pub(crate) records: u64,
    pub(crate) good: u64,
    pub(crate) others: u64,
}

impl Counts {
    pub(crate) const NONE: Counts = Counts {
        records: 0,
        good: 0,
        others: 0,
    };

    /// One record more.
    pub(crate) fn with(self, good: bool) -> Counts
        ensures { result ≡ counted_one self good }
    {
        let records = self.records.saturating_add(1);
        if good {
            Counts {
                records,
                good: self.good.saturating_add(1),
                others: self.others,
            }
        } else {
            Counts {
                records,
                good: self.good,
                others: self.others.saturating_add(1),
            }
        }
    }
}

impl fmt::Display for Counts {
    ghost use Rattle.std.specs.Prelude.{Some};
    ghost use Rattle.result_table.specs.Tally.{counts_text};

    ghost output = { λ c. Some (counts_text c) };

    #[tactic(auto, unfolding(crate::specs::Tally::counts_text))]
    fn fmt<W: fmt::Write>(&self, f: &mut fmt::Formatter<W>) -> fmt::Result {
        let records = self.records;
        let good = self.good;
        let others = self.others;
        write!(f, " {records:8} {good:8} {others:8}")
    }
}

/// One record more under the key.
pub(crate) fn count<K: Ord + Copy + Drop>(
    lines: &mut BTreeMap<K, Counts>,
    key: K,
    good: bool,
) -> Result<(), Memory>
    ensures err { OnErr result (lines.new.entries ≡ lines.old.entries) }
    ensures ok { OnOk result (lines.new.entries ≡ counted_in K.cmp lines.old.entries key good) }
{
    let counts = lines.get(&key).copied().unwrap_or(Counts::NONE);
    lines.insert(key, counts.with(good))?;
    Ok(())
}
