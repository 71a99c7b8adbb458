//! The tasks that are posted.
ghost use Rattle.std.specs.Prelude.{◌≡◌, ◌<◌, IfOk};
ghost use Rattle.std.specs.String.{string_bytes};
ghost use Rattle.rehearsal_generate.specs.Posts.{alone_text, body_of, both_text, kind_drawn, partner_of, post_of, seed_after_post, spec_text, stream_text, task_text};

use crate::tally::Tally;
use plugin_core::kind::{TestKind, kind_name};
use ps_time::memory::Memory;
use std::alloc::Global;

/// A task, and the host to which it is posted.
#[derive(Clone, Copy)]
pub struct Post {
    /// The place of the host.
    pub place: usize,
    pub kind: TestKind,
    /// How long the test takes, or the most that it may take.
    pub seconds: u64,
    /// From -10 to 10.
    pub priority: i16,
}

fn kind_drawn(number: u64) -> TestKind
    ensures { result ≡ kind_drawn number }
{
    match number {
        0 => TestKind::Idle,
        1 => TestKind::Idleex,
        2 => TestKind::Idlemany,
        _ => TestKind::Simplestream,
    }
}

/// The place of the next host; after the last comes the first.
pub fn partner_of(place: usize) -> usize
    requires { place < 8 }
    ensures partner { result ≡ partner_of place }
    ensures within { result < 8 }
{
    (place + 1) % 8
}

/// The next post, by four draws.
#[tactic(auto, unfolding(crate::specs::Posts::post_of, crate::specs::Posts::seed_after_post))]
pub fn draw_post(tally: &mut Tally) -> Post
    ensures post { result ≡ post_of tally.old.seed }
    ensures tally { tally.new ≡ record tally.old { seed = seed_after_post tally.old.seed } }
    ensures place { result.place < 8 }
{
    let place = (tally.draw() % 8) as usize;
    let kind = kind_drawn(tally.draw() % 4);
    let seconds = 1 + tally.draw() % 60;
    let priority = (tally.draw() % 21) as i16 - 10;
    Post {
        place,
        kind,
        seconds,
        priority,
    }
}

fn alone_text(alloc: Global, seconds: u64) -> Result<String, Memory>
    ensures { IfOk result (λ text. string_bytes text ≡ alone_text seconds) }
{
    Ok(format!(in alloc; "{{\"duration\":\"PT{seconds}S\"}}")?)
}

fn both_text(alloc: Global, host: usize, partner: usize, seconds: u64) -> Result<String, Memory>
    ensures { IfOk result (λ text. string_bytes text ≡ both_text host partner seconds) }
{
    Ok(format!(in alloc;
        "{{\"duration\":\"PT{seconds}S\",\"hosts\":[\"h{host}\",\"h{partner}\"]}}"
    )?)
}

fn stream_text(alloc: Global, partner: usize, seconds: u64) -> Result<String, Memory>
    ensures { IfOk result (λ text. string_bytes text ≡ stream_text partner seconds) }
{
    Ok(format!(in alloc; "{{\"dest\":\"h{partner}\",\"timeout\":\"PT{seconds}S\"}}")?)
}

// The spec of the test, as JSON.
fn spec_text(alloc: Global, kind: TestKind, place: usize, seconds: u64) -> Result<String, Memory>
    requires { place < 8 }
    ensures { IfOk result (λ text. string_bytes text ≡ spec_text kind place seconds) }
{
    let partner = partner_of(place) + 1;
    match kind {
        TestKind::Idlemany => both_text(alloc, place + 1, partner, seconds),
        TestKind::Simplestream => stream_text(alloc, partner, seconds),
        _ => alone_text(alloc, seconds),
    }
}

fn task_text(alloc: Global, priority: i16, spec: &str, kind: TestKind) -> Result<String, Memory>
    ensures { IfOk result (λ text. string_bytes text ≡ task_text priority spec.now kind) }
{
    let kind = kind_name(kind);
    Ok(format!(in alloc;
        "{{\"priority\":{priority},\"test\":{{\"spec\":{spec},\"type\":\"{kind}\"}}}}"
    )?)
}

/// What is posted.
#[tactic(auto, unfolding(crate::specs::Posts::body_of))]
pub fn body_of(alloc: Global, post: &Post) -> Result<String, Memory>
    requires { post.now.place < 8 }
    ensures { IfOk result (λ text. string_bytes text ≡ body_of post.now) }
{
    let spec = spec_text(alloc, post.kind, post.place, post.seconds)?;
    task_text(alloc, post.priority, spec.as_str(), post.kind)
}
