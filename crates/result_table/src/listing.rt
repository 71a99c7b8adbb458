//! Pages of a keeper's table.
ghost use Rattle.std.specs.Prelude.{◌≡◌, ◌≤◌, ◌++◌, List, IfOk, OnOk, Err};
ghost use Rattle.std.specs.String.{string_bytes};
ghost use Rattle.ps_ports.specs.Causes.{Rose};
ghost use Rattle.result_table.specs.Record.{HasMoments};
ghost use Rattle.result_table.specs.Report.{listed, listing_text, record_line};
ghost use Rattle.result_table.specs.declared.record.Record.{Record as Kept};

use crate::keeper::{Keeper, KeeperFault};
use crate::record::Record;
use crate::visit::{Visitor, visit_table};
use ps_time::id::{Id, id_text};
use ps_time::memory::Memory;
use ps_time::moment_text::moment_text;
use ps_time::text::Text;
use std::alloc::Global;
use std::fmt::Write;
use std::marker::Model;

/// How many records a page has.
const PAGE: u64 = 50;

/// The records of a page, as lines.
#[derive(Drop)]
struct Page {
    /// How many records are still to be skipped.
    skip: u64,
    /// How many are still to be listed.
    left: u64,
    text: String,
}

impl Model for Page {
    ghost use Rattle.std.specs.String.{string_bytes};
    ghost use Rattle.result_table.specs.Report.{PageState};

    ghost Value = { PageState };

    ghost view = { λ p. record { skip = p.skip; left = p.left; text = string_bytes p.text } };
}

fn add_line(alloc: Global, text: &mut String, kept: &Record) -> Result<(), Memory>
    requires { HasMoments kept.now }
    ensures { OnOk result (string_bytes text.new ≡ string_bytes text.old ++ record_line kept.now) }
{
    let id = id_text(alloc, Id::Run(kept.key))?;
    let since = moment_text(alloc, kept.since)?;
    let latest = moment_text(alloc, kept.latest)?;
    let good = if kept.good { "good" } else { "bad" };
    let size = kept.body.len();
    write!(text, "{id} {since} {latest} ")?;
    writeln!(text, "{good} {size}")?;
    Ok(())
}

impl Visitor for Page {
    ghost use Rattle.std.specs.Prelude.{◌==◌, refl};
    ghost use Rattle.result_table.specs.Report.{listed};

    ghost after = { listed };

    ghost is_full = { λ p. p.left == 0 };

    fn visit(&mut self, alloc: Global, kept: &Record) -> Result<(), Memory> {
        if self.left == 0 {
            return Ok(());
        }
        if self.skip > 0 {
            self.skip -= 1;
            return Ok(());
        }
        add_line(alloc, &mut self.text, kept)?;
        self.left -= 1;
        Ok(())
    }

    fn is_full(&self) -> bool {
        self.left == 0
    }

    ghost full_stays = { λ visitor r is. rw is refl };
}

/// A page of the records by key, the first being number 1: fifty records, a line each, or those that are left. A page past
/// the end is empty. It reads the keeper in pieces of 64 records, up to the end of the page.
pub fn listing<Q: Keeper>(alloc: Global, keeper: &mut Q, page: u32) -> Result<Text, KeeperFault>
    requires first { 1 ≤ page }
    requires last { page ≤ 1_000_000 }
    ensures later { Q.keeper_faults keeper.old ≤ Q.keeper_faults keeper.new }
    ensures failed { result ≡ Err KeeperFault.Failed → Rose (Q.keeper_faults keeper.old) (Q.keeper_faults keeper.new) }
    ensures sound { Q.is_sound keeper.new → Q.is_sound keeper.old }
    ensures text { (table : List Kept) → Q.has_table keeper.old table → Q.is_sound keeper.new
        → IfOk result (λ text. text ≡ listing_text table page) }
    ensures stays { (table : List Kept) → Q.has_table keeper.old table → Q.is_sound keeper.new → Q.has_table keeper.new table }
{
    let mut lines = Page {
        skip: u64::from(page - 1) * PAGE,
        left: PAGE,
        text: String::new(alloc),
    };
    visit_table(alloc, keeper, &mut lines)?;
    Ok(Text::from_string(lines.text))
}
