//! A link in memory.
ghost use Rattle.std.specs.Prelude.{◌≡◌, ◌≤◌, [], ◌∷◌, ◌++◌, IfOk, OnOk, false, length, map};
ghost use Rattle.ps_ports.specs.Causes.{counted};
ghost use Rattle.ps_ports.specs.Memory.{no_calls, called};
ghost use Rattle.ps_doors.specs.Link.{greatest_reply, link_faults_after, answer_of, next_answer, replies_after};
ghost use Rattle.ps_doors.specs.Told.{TellsMore, told_by};

use crate::link::{Asked, Link, LinkFault, MOST_REPLY};
use ps_ports::failing_calls::FailingCalls;
use ps_ports::faults::Faults;
use ps_time::items::Items;
use ps_time::memory::Memory;
use ps_time::text::Text;
use std::alloc::Global;
use std::collections::VecDeque;
use std::marker::Model;

/// A link that gives its replies in order, whatever is asked. A call that is to fail fails, and so does each one
/// behind the last reply. It tells what was asked, until a call finds no memory to be told.
pub struct MemoryLink {
    replies: VecDeque<Vec<u8>>,
    asked: Vec<Asked>,
    calls: FailingCalls,
    faults: Faults,
    starved: bool,
}

impl Model for MemoryLink {
    ghost use Rattle.std.specs.Prelude.{map};
    ghost use Rattle.ps_doors.specs.Link.{LinkState};

    ghost Value = { LinkState };

    ghost view = { λ l. record {
      replies = map (λ v. v.items) l.replies.items;
      asked = l.asked.items;
      calls = l.calls;
      faults = l.faults;
      starved = l.starved;
    } };
}

impl Drop for MemoryLink {
    fn drop(self) {
        let MemoryLink {
            replies: _,
            asked: _,
            calls: _,
            faults: _,
            starved: _,
        } = self;
    }
}

impl MemoryLink {
    /// `failing` has the numbers of the calls that are to fail, the first call being number 1. Of a longer reply the
    /// first `MOST_REPLY` bytes are given.
    pub fn new(alloc: Global, replies: Vec<Vec<u8>>, failing: Vec<u64>) -> MemoryLink
        ensures { result ≡ record { replies = map (λ v. v.items) replies.items; asked = []; calls = no_calls failing.items; faults = 0; starved = false } }
    {
        MemoryLink {
            replies: VecDeque::from_vec(replies),
            asked: Vec::new(alloc),
            calls: FailingCalls::new(failing),
            faults: Faults::none(),
            starved: false,
        }
    }

    /// What was asked so far, as long as memory never ran out.
    pub fn asked(&self) -> &[Asked]
        ensures { result.now ≡ self.now.asked }
    {
        self.asked.as_slice()
    }

    /// How many calls failed.
    pub fn faults(&self) -> u64
        ensures { result ≡ self.now.faults }
    {
        self.faults.count()
    }

    /// Whether a call ever found no memory to be told.
    pub fn starved(&self) -> bool
        ensures { result ≡ self.now.starved }
    {
        self.starved
    }

    fn next_answer(&mut self) -> Result<Vec<u8>, LinkFault>
        ensures bound { IfOk result (λ reply. length reply.items ≤ greatest_reply) }
        ensures answer { answer_of (λ v. v.items) result ≡ next_answer self.old.calls self.old.replies }
        ensures after { self.new ≡ record {
          replies = replies_after self.old.replies result;
          asked = self.old.asked;
          calls = called self.old.calls;
          faults = link_faults_after self.old.faults result;
          starved = self.old.starved;
        } }
    {
        let fails = self.calls.next_fails();
        if !fails {
            if let Some(mut reply) = self.replies.pop_front() {
                reply.truncate(MOST_REPLY);
                return Ok(reply);
            }
        }
        self.faults.raise();
        Err(LinkFault::Failed)
    }
}

fn copy_answer(
    alloc: Global,
    answer: &Result<Vec<u8>, LinkFault>,
) -> Result<Result<Items<u8>, LinkFault>, Memory>
    ensures { IfOk result (λ made. made ≡ answer_of (λ v. v.items) answer.now) }
{
    match answer {
        Ok(reply) => Ok(Ok(Items::from_vec(reply.as_slice().to_vec(alloc)?))),
        Err(fault) => Ok(Err(*fault)),
    }
}

// One call more, or none where memory runs out.
fn note(
    asked: &mut Vec<Asked>,
    alloc: Global,
    authority: &str,
    request: &[u8],
    answer: &Result<Vec<u8>, LinkFault>,
) -> Result<(), Memory>
    ensures ok { OnOk result (asked.new.items ≡ asked.old.items
        ++ record { authority = authority.now; request = request.now; answer = answer_of (λ v. v.items) answer.now } ∷ []) }
{
    let authority = Text::new(alloc, authority)?;
    let request = Items::from_vec(request.to_vec(alloc)?);
    let answer = copy_answer(alloc, answer)?;
    asked.push(Asked {
        authority,
        request,
        answer,
    })?;
    Ok(())
}

impl Link for MemoryLink {
    ghost use Rattle.ps_ports.specs.Causes.{counted, counted_fits};
    ghost use Rattle.ps_doors.specs.Told.{told_by};

    ghost asked = { λ l. told_by l.starved l.asked };

    ghost link_faults = { λ l. counted l.faults };

    fn ask(&mut self, alloc: Global, authority: &str, request: &[u8]) -> Result<Vec<u8>, LinkFault>
        ensures bound { IfOk result (λ reply. length reply.items ≤ greatest_reply) }
        ensures told { TellsMore (told_by self.old.starved self.old.asked) (told_by self.new.starved self.new.asked)
            (record { authority = authority.now; request = request.now; answer = answer_of (λ v. v.items) result }) }
        ensures count { counted self.new.faults ≡ link_faults_after (counted self.old.faults) result }
        ensures later { counted self.old.faults ≤ counted self.new.faults }
        ensures answer { answer_of (λ v. v.items) result ≡ next_answer self.old.calls self.old.replies }
        ensures rest { self.new.replies ≡ replies_after self.old.replies result }
        ensures calls { self.new.calls ≡ called self.old.calls }
    {
        let answer = self.next_answer();
        if note(&mut self.asked, alloc, authority, request, &answer).is_err() {
            self.starved = true;
        }
        answer
    }

    ghost link_faults_fit = { λ l. counted_fits l.faults };
}
