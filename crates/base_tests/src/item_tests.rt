//! Texts, lists, askers, tiers, intervals and keys.
ghost use Rattle.std.specs.Prelude.{◌≡◌, ◌/◌, ◌<◌, length, map, slice_set};

use ps_time::asker::{Asker, Verdict};
use ps_time::duplicate::Duplicate;
use ps_time::interval::{Interval, Window};
use ps_time::items::Items;
use ps_time::key::RunKey;
use ps_time::memory::Memory;
use ps_time::same::Same;
use ps_time::text::Text;
use ps_time::tiers::Tiers;
use std::alloc::Global;
use std::cmp::Ordering;
use std::test::Fail;

fn is_text_copied(alloc: Global) -> Result<bool, Memory> {
    let text = Text::new(alloc, "a-host")?;
    let copy = text.copy(alloc)?;
    Ok(text.same(&copy) && copy.is("a-host") && text == copy && text.len() == 6)
}

fn is_text_let_go(alloc: Global) -> Result<bool, Memory> {
    let text = Text::new(alloc, "a-host")?;
    Ok(text.into_string().as_str() == "a-host")
}

fn is_text_shown(alloc: Global) -> Result<bool, Memory> {
    let text = Text::new(alloc, "a-host")?;
    let shown = Text::from_string(format!(in alloc; "<{text}>")?);
    Ok(shown.is("<a-host>") && shown.cmp(&text) == Ordering::Less)
}

fn two_texts(alloc: Global) -> Result<Items<Text>, Memory> {
    let mut items = Items::new(alloc);
    items.push(Text::new(alloc, "a-host")?)?;
    items.push(Text::new(alloc, "another")?)?;
    Ok(items)
}

fn is_list_copied(alloc: Global) -> Result<bool, Memory> {
    let items = two_texts(alloc)?;
    let twice = items.copy(alloc)?;
    let is_copied = items.same(&twice) && twice.len() == 2;
    Ok(is_copied && Items::from_vec(twice.into_vec()).as_slice().len() == 2)
}

#[test]
fn texts_and_lists_are_made_with_ample_memory(rt: HostRuntime) -> Result<(), Memory> {
    let alloc = rt.alloc();
    assert!(rt; is_text_copied(alloc)?);
    assert!(rt; is_text_let_go(alloc)?);
    assert!(rt; is_text_shown(alloc)?);
    assert!(rt; is_list_copied(alloc)?);
    let some = Some(7_u64);
    assert!(rt; !some.same(&None));
    Ok(())
}

// Lists that are changed in place, as rows change what they hold.
fn put(items: &mut Items<u64>, at: usize, item: u64)
    requires { at < length items.old }
    ensures { items.new ≡ slice_set items.old at item }
{
    items[at] = item;
}

fn three(alloc: Global) -> Result<Items<u64>, Memory> {
    let mut items = Items::new(alloc);
    items.push(5)?;
    items.push(6)?;
    items.push(7)?;
    Ok(items)
}

fn is_one_replaced(alloc: Global) -> Result<bool, Memory> {
    let mut items = three(alloc)?;
    if items.len() != 3 {
        return Ok(false);
    }
    let old = items.replace(1, 60);
    Ok(old == 6 && items.as_slice() == &[5, 60, 7][..])
}

fn is_one_written(alloc: Global) -> Result<bool, Memory> {
    let mut items = three(alloc)?;
    if items.len() != 3 {
        return Ok(false);
    }
    put(&mut items, 2, 70);
    Ok(items.as_slice() == &[5, 6, 70][..])
}

// A walk that writes each item.
fn halve(items: &mut Items<u64>)
    ensures { items.new ≡ map (λ n. n / 2) items.old }
{
    for item in items.as_mut_slice() {
        *item /= 2;
    }
}

fn are_all_written(alloc: Global) -> Result<bool, Memory> {
    let mut items = three(alloc)?;
    halve(&mut items);
    Ok(items.as_slice() == &[2, 3, 3][..])
}

fn is_text_replaced(alloc: Global) -> Result<bool, Memory> {
    let mut items = two_texts(alloc)?;
    if items.len() != 2 {
        return Ok(false);
    }
    let old = items.replace(0, Text::new(alloc, "third")?);
    Ok(old.is("a-host") && items[0].is("third") && items[1].is("another"))
}

#[test]
fn items_change_in_their_places(rt: HostRuntime) -> Result<(), Memory> {
    let alloc = rt.alloc();
    assert!(rt; is_one_replaced(alloc)?);
    assert!(rt; is_one_written(alloc)?);
    assert!(rt; are_all_written(alloc)?);
    assert!(rt; is_text_replaced(alloc)?);
    Ok(())
}

fn is_asker_copied(alloc: Global) -> Result<bool, Memory> {
    let requester = Text::new(alloc, "10.0.0.9")?;
    let asker = Asker {
        requester,
        server: Text::new(alloc, "a")?,
    };
    Ok(asker.same(&asker.duplicate(alloc)?))
}

fn are_tiers_copied(alloc: Global) -> Result<bool, Memory> {
    let mut first = Items::new(alloc);
    first.push(Window { first: 5, last: 5 })?;
    let tiers = Tiers {
        first,
        second: Items::new(alloc),
    };
    Ok(tiers.same(&tiers.duplicate(alloc)?))
}

#[test]
fn askers_and_tiers_are_copied(rt: HostRuntime) -> Result<(), Memory> {
    let alloc = rt.alloc();
    assert!(rt; is_asker_copied(alloc)?);
    assert!(rt; are_tiers_copied(alloc)?);
    assert!(rt; Verdict::AboveCeiling(-3).same(&Verdict::AboveCeiling(-3).duplicate(alloc)?));
    assert!(rt; !Verdict::Permitted(1).same(&Verdict::Stopped(1)));
    Ok(())
}

static OTHERS: [(u64, u64, bool); 6] = [
    (150, 200, false),
    (149, 150, true),
    (50, 100, false),
    (50, 101, true),
    (120, 130, true),
    (0, 1000, true),
];

// Intervals beside one from 100 to 150, asked both ways round.
fn check_overlaps(cases: &[(u64, u64, bool)]) -> Result<(), Fail> {
    let run = Interval {
        start: 100,
        end: 150,
    };
    for (start, end, want) in cases {
        if *end <= *start {
            return Err(Fail::new(format_args!("no interval at {start}")));
        }
        let other = Interval {
            start: *start,
            end: *end,
        };
        if run.overlaps(&other) != *want || other.overlaps(&run) != *want {
            return Err(Fail::new(format_args!("at {start}")));
        }
    }
    Ok(())
}

#[test]
fn intervals_that_touch_do_not_overlap(rt: HostRuntime) -> Result<(), Fail> {
    check_overlaps(&OTHERS)?;
    let run = Interval {
        start: 100,
        end: 150,
    };
    assert!(rt; run.same(&run.duplicate(rt.alloc())?));
    Ok(())
}

static KEYS: [RunKey; 5] = [
    RunKey {
        lead: 1,
        task: 9,
        number: 9,
        attempt: 9,
    },
    RunKey {
        lead: 2,
        task: 0,
        number: 9,
        attempt: 9,
    },
    RunKey {
        lead: 2,
        task: 1,
        number: 0,
        attempt: 9,
    },
    RunKey {
        lead: 2,
        task: 1,
        number: 1,
        attempt: 0,
    },
    RunKey {
        lead: 2,
        task: 1,
        number: 1,
        attempt: 1,
    },
];

// Each key beside each, where they stand in their order.
fn check_order(keys: &[RunKey]) -> Result<(), Fail> {
    for i in 0..keys.len() {
        for j in 0..keys.len() {
            if keys[i].order(&keys[j]) != i.cmp(&j) || keys[i].same(&keys[j]) != (i == j) {
                return Err(Fail::new(format_args!("at {i} and {j}")));
            }
        }
    }
    Ok(())
}

#[test]
fn keys_are_ordered_by_their_fields(_rt: HostRuntime) -> Result<(), Fail> {
    check_order(&KEYS)
}
