//! What is asked of a store.

use crate::fault::LineFault;
use crate::given::{a_count, a_moment, a_number, a_page, cut, key};
use ps_time::moment::MAX_MOMENT;
use ps_time::text::Text;
use result_keeper::work::KeeperWork;
use result_table::keeper::Keeper;
use result_table::listing::listing;
use result_table::record::Record;
use result_table::report::report;
use std::alloc::Global;
use std::{print, println};

// Of made results every third is no success.
const BODIES: [&str; 3] = [
    r#"{"schema":1,"succeeded":true}"#,
    r#"{"schema":1,"succeeded":true}"#,
    r#"{"schema":1,"succeeded":false}"#,
];

fn put<Q: Keeper>(alloc: Global, keeper: &mut Q, rest: &str) -> Result<(), LineFault> {
    let (number, rest) = cut(rest);
    let (moment, body) = cut(rest);
    let key = key(1, a_number(number)?);
    keeper.put(alloc, key, a_moment(moment)?, body)?;
    Ok(())
}

fn put_made<Q: Keeper>(alloc: Global, keeper: &mut Q, number: u16) -> Result<(), LineFault> {
    let moment = 1_000 + 60 * u64::from(number);
    let body = BODIES[usize::from(number % 3)];
    let key = key(1 + u32::from(number % 10), u32::from(number));
    keeper.put(alloc, key, moment, body)?;
    Ok(())
}

fn fill<Q: Keeper>(alloc: Global, keeper: &mut Q, rest: &str) -> Result<(), LineFault> {
    for number in 0..a_count(rest)? {
        put_made(alloc, keeper, number)?;
    }
    Ok(())
}

fn print_record(rt: &HostRuntime, kept: &Record) -> Result<(), LineFault> {
    let since = kept.since;
    let latest = kept.latest;
    let word = if kept.good { "good" } else { "bad" };
    println!(rt; "{since} {latest} {word}")?;
    Ok(())
}

fn get<Q: Keeper>(rt: &HostRuntime, keeper: &mut Q, rest: &str) -> Result<(), LineFault> {
    let found = keeper.get(rt.alloc(), key(1, a_number(rest)?))?;
    let printed = match &found {
        Some(kept) => print_record(rt, kept),
        None => Err(LineFault::Failed),
    };
    drop(found);
    printed
}

fn print_text(rt: &HostRuntime, text: &Text) -> Result<(), LineFault> {
    print!(rt; "{text}")?;
    Ok(())
}

fn tell<Q: Keeper>(rt: &HostRuntime, keeper: &mut Q) -> Result<(), LineFault> {
    let text = report(rt.alloc(), keeper, 0, MAX_MOMENT)?;
    print_text(rt, &text)
}

fn list<Q: Keeper>(rt: &HostRuntime, keeper: &mut Q, rest: &str) -> Result<(), LineFault> {
    let text = listing(rt.alloc(), keeper, a_page(rest)?)?;
    print_text(rt, &text)
}

fn run_line<Q: Keeper>(rt: &HostRuntime, keeper: &mut Q, line: &str) -> Result<(), LineFault> {
    let (word, rest) = cut(line);
    match word {
        "put" => put(rt.alloc(), keeper, rest),
        "fill" => fill(rt.alloc(), keeper, rest),
        "get" => get(rt, keeper, rest),
        "report" => tell(rt, keeper),
        "list" => list(rt, keeper, rest),
        _ => Err(LineFault::Line),
    }
}

// A line of which no store is asked.
fn is_other(line: &str) -> bool {
    let word = cut(line).0;
    word == "memory" || word == "file" || word == "show"
}

fn run_each<Q: Keeper>(
    rt: &HostRuntime,
    keeper: &mut Q,
    lines: &[String],
) -> Result<(), LineFault> {
    for line in lines {
        if is_other(line.as_str()) {
            return Ok(());
        }
        run_line(rt, keeper, line.as_str())?;
    }
    Ok(())
}

/// Does what the lines ask of a store, up to one that names another, and lets it go.
pub(crate) fn run_lines<Q: Keeper + Drop>(
    rt: &HostRuntime,
    keeper: Q,
    lines: &[String],
) -> Result<(), LineFault> {
    let mut keeper = keeper;
    let done = run_each(rt, &mut keeper, lines);
    drop(keeper);
    done
}

/// Lines that are asked of a store, for one over files.
#[derive(Clone, Copy)]
pub(crate) struct Lines<'a> {
    pub(crate) rt: &'a HostRuntime,
    pub(crate) behind: &'a [String],
}

impl KeeperWork for Lines<'_> {
    type Outcome = Result<(), LineFault>;

    ghost comes = { λ _ _. Unit {0} };

    fn work_on<Q: Keeper + Drop>(self, keeper: Q) -> Result<(), LineFault> {
        run_lines(self.rt, keeper, self.behind)
    }
}
