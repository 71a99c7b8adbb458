//! Copies of policies, and laws that only their callers cite.
use archive_retry::policy::{Entry, Policy};
use plugin_core::write_test::{law_test, law_test_text};
use ps_json::law::law_taken_once;
use ps_time::items::Items;
use ps_time::memory::Memory;
use ps_time::same::Same;
use std::alloc::Global;
use task_spec::write_task::{law_task, law_task_text};

fn one_entry(alloc: Global) -> Result<Policy, Memory> {
    let mut entries = Items::new(alloc);
    entries.push(Entry {
        attempts: 2,
        wait: 60,
    })?;
    Ok(Policy { entries })
}

fn is_another_with_one_more(policy: &Policy, copy: &mut Policy) -> bool {
    let more = copy.entries.push(Entry {
        attempts: 1,
        wait: 600,
    });
    more.is_ok() && !copy.same(policy)
}

fn is_copied(alloc: Global, policy: &Policy) -> Result<bool, Memory> {
    let mut copy = policy.copy(alloc)?;
    Ok(copy.same(policy) && is_another_with_one_more(policy, &mut copy))
}

#[test]
fn copies_of_policies(rt: HostRuntime) -> Result<(), Memory> {
    let policy = one_entry(rt.alloc())?;
    assert!(rt; is_copied(rt.alloc(), &policy)?);
    Ok(())
}

#[test]
fn laws(_rt: HostRuntime) {
    law_taken_once();
    law_test();
    law_test_text();
    law_task();
    law_task_text();
}
