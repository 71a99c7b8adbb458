//! The first step of a host that was opened: the limits of its configuration are in force, and no run goes on.
ghost use Rattle.std.specs.Prelude.{◌≡◌, ◌++◌, ◌==◌, ◌∷◌, [], IfOk, OnOk, filter_map, if◌then◌else◌, length};
ghost use Rattle.run_states.specs.Rows.{IsAscendingRows};
ghost use Rattle.host_model.specs.Book.{keys_of_rows};
ghost use Rattle.host_model.specs.Epochs.{is_too_long, open_changes, open_host, refused};
ghost use Rattle.host_model.specs.Lawful.{Lawful};
ghost use Rattle.host_model.specs.Turn.{changed};
ghost use Rattle.host_model.specs.declared.change.Change.TheVariants.{LimitsSet as LimitsChange};
ghost use Rattle.host_model.specs.declared.reply.LimitsWrong.TheVariants.{Bytes};
ghost use Rattle.host_inputs.specs.Kept.{book_of};
ghost use Rattle.host_core.specs.Restarts.{restart_at};

use host_inputs::limits::MOST_LIMITS_BYTES;
use host_model::change::Change;
use host_model::config::Config;
use host_model::reply::{LimitsWrong, Outcome, Reply};
use host_pages::showing::Showing;
use host_turns::ending::restart_run;
use limit_apply::limits::Limits;
use ps_time::boxed::Boxed;
use ps_time::items::Items;
use ps_time::key::RunKey;
use ps_time::memory::Memory;
use std::alloc::Global;

/// What a host does first after it was opened: the limits of its configuration become the first epoch of a book that has
/// none, unless they are too long to be kept, and every run that was going on ends without success.
pub fn open_host<R: Showing>(alloc: Global, book: &R, config: &Config) -> Result<Outcome, Memory>
    requires epoch { R.latest book.now ≡ length (R.kept book.now).epochs }
    requires lawful { Lawful config.now.number (book_of (R.at book.now) (R.seen book.now) (R.kept book.now)) }
    ensures { IfOk result (λ o. o ≡ open_host config.now (book_of (R.at book.now) (R.seen book.now) (R.kept book.now)) (R.at book.now)) }
{
    let is_new = book.epoch() == 0;
    if is_new && is_too_long(&config.limits) {
        return Ok(refused(alloc, config.limits.text().len()));
    }
    let list = open_changes(alloc, book, config, is_new)?;
    changed(list)
}

fn is_too_long(limits: &Limits) -> bool
    ensures { result ≡ is_too_long limits.now }
{
    MOST_LIMITS_BYTES < limits.text().len()
}

fn refused(alloc: Global, bytes: usize) -> Outcome
    ensures { result ≡ refused (Bytes bytes) }
{
    Outcome {
        reply: Reply::LimitsWrong(LimitsWrong::Bytes(bytes as u64)),
        list: Items::new(alloc),
    }
}

// The reply counts the changes.
fn changed(list: Items<Change>) -> Result<Outcome, Memory>
    ensures { IfOk result (λ o. o ≡ changed list) }
{
    let Ok(count) = u32::try_from(list.len()) else {
        drop(list);
        return Err(Memory);
    };
    Ok(Outcome {
        reply: Reply::Changes(count),
        list,
    })
}

fn open_changes<R: Showing>(
    alloc: Global,
    book: &R,
    config: &Config,
    is_new: bool,
) -> Result<Items<Change>, Memory>
    requires new { is_new ≡ (length (R.kept book.now).epochs == 0) }
    requires lawful { Lawful config.now.number (book_of (R.at book.now) (R.seen book.now) (R.kept book.now)) }
    ensures { IfOk result (λ list. list ≡ open_changes config.now (book_of (R.at book.now) (R.seen book.now) (R.kept book.now)) (R.at book.now)) }
{
    let mut list = first_limits(alloc, &config.limits, is_new)?;
    add_restarts(alloc, book, config, &mut list)?;
    Ok(list)
}

fn first_limits(alloc: Global, limits: &Limits, is_new: bool) -> Result<Items<Change>, Memory>
    ensures { IfOk result (λ list. list ≡ (if is_new then LimitsChange limits.now ∷ [] else [])) }
{
    let mut list = Items::new(alloc);
    if is_new {
        let limits = Boxed::new(alloc, limits.copy(alloc)?)?;
        list.push(Change::LimitsSet(limits))?;
    }
    Ok(list)
}

// Adds the end of each active run: a walk from one run to the next.
fn add_restarts<R: Showing>(
    alloc: Global,
    book: &R,
    config: &Config,
    list: &mut Items<Change>,
) -> Result<(), Memory>
    requires { Lawful config.now.number (book_of (R.at book.now) (R.seen book.now) (R.kept book.now)) }
    ensures list { OnOk result (list.new ≡ list.old ++ filter_map (restart_at config.now (book_of (R.at book.now) (R.seen book.now) (R.kept book.now))) (keys_of_rows (R.seen book.now))) }
    ensures ascending { IsAscendingRows (R.seen book.now) }
{
    let mut last = None;
    while let Some(key) = book.next_row(last) {
        if let Some(change) = restart_at(alloc, book, config, key)? {
            list.push(change)?;
        }
        last = Some(key);
    }
    Ok(())
}

fn restart_at<R: Showing>(
    alloc: Global,
    book: &R,
    config: &Config,
    key: RunKey,
) -> Result<Option<Change>, Memory>
    requires { Lawful config.now.number (book_of (R.at book.now) (R.seen book.now) (R.kept book.now)) }
    ensures { IfOk result (λ change. change ≡ restart_at config.now (book_of (R.at book.now) (R.seen book.now) (R.kept book.now)) key) }
{
    match book.find(key) {
        Some(row) => restart_run(alloc, config, row),
        None => Ok(None),
    }
}
