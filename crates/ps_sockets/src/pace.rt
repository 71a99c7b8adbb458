//! How long the next call on a connection may wait.
ghost use Rattle.std.specs.Prelude.{◌≡◌, ◌+◌, true, false, min, IfSome, IsSome};
ghost use Rattle.std.specs.Duration.{as_nanos, max_nanos};
ghost use Rattle.ps_sockets.specs.Pace.{EndsAt, bound_of, is_reading, is_writing, read_phase};

use crate::deadline::Deadline;
use crate::waits::Waits;
use std::time::Duration;

/// What says how long reads and writes of a connection may wait. Moments are those of one steady clock.
pub trait Pace: Drop {
    /// How long a read may wait now; none where its time is over.
    fn to_read(&mut self, now: Duration) -> Option<Duration>;

    /// Bytes were read.
    fn has_read(&mut self);

    /// How long a write may wait now; none where its time is over.
    fn to_write(&mut self, now: Duration) -> Option<Duration>;
}

/// What a connection of a client is in.
#[derive(Clone, Copy, Debug, PartialEq, Eq)]
pub enum Phase {
    /// Nothing was read or written.
    New,
    /// The first byte of a message is waited for.
    Silence,
    /// A message comes.
    Message,
    /// What answers it goes out.
    Response,
}

/// The pace of a connection of a client. A message begins with the first read behind a write, a response with the first
/// write behind a read. Their time runs from there, however many calls they take.
#[derive(Drop)]
pub struct MessagePace {
    waits: Waits,
    phase: Phase,
    since: Duration,
}

impl MessagePace {
    /// Of a connection on which nothing was read or written.
    pub fn new(waits: Waits) -> MessagePace
        ensures waits { result.waits ≡ waits }
        ensures phase { is_reading result.phase ≡ false }
        ensures silent { is_writing result.phase ≡ false }
    {
        MessagePace {
            waits,
            phase: Phase::New,
            since: Duration::ZERO,
        }
    }

    fn bound(&self) -> Duration
        ensures { result ≡ bound_of self.now.waits self.now.phase }
    {
        match self.phase {
            Phase::New | Phase::Silence => self.waits.silence,
            Phase::Message => self.waits.message,
            Phase::Response => self.waits.response,
        }
    }

    fn left(&self, now: Duration) -> Option<Duration>
        ensures { EndsAt (min (as_nanos self.now.since + as_nanos (bound_of self.now.waits self.now.phase)) max_nanos) (as_nanos now) result }
    {
        Deadline::after(self.since, self.bound()).left(now)
    }
}

impl Pace for MessagePace {
    fn to_read(&mut self, now: Duration) -> Option<Duration>
        ensures same { self.new.waits ≡ self.old.waits }
        ensures begins { is_reading self.old.phase ≡ false → (self.new.phase ≡ Phase.Silence) × (self.new.since ≡ now) }
        ensures goes_on { is_reading self.old.phase ≡ true → (self.new.phase ≡ self.old.phase) × (self.new.since ≡ self.old.since) }
        ensures left { EndsAt (min (as_nanos self.new.since + as_nanos (bound_of self.new.waits self.new.phase)) max_nanos) (as_nanos now) result }
    {
        match self.phase {
            Phase::Silence | Phase::Message => {}
            Phase::New | Phase::Response => {
                self.phase = Phase::Silence;
                self.since = now;
            }
        }
        self.left(now)
    }

    fn has_read(&mut self)
        ensures same { self.new.waits ≡ self.old.waits }
        ensures phase { self.new.phase ≡ read_phase self.old.phase }
        ensures since { self.new.since ≡ self.old.since }
    {
        if self.phase == Phase::Silence {
            self.phase = Phase::Message;
        }
    }

    fn to_write(&mut self, now: Duration) -> Option<Duration>
        ensures same { self.new.waits ≡ self.old.waits }
        ensures phase { self.new.phase ≡ Phase.Response }
        ensures begins { is_writing self.old.phase ≡ false → self.new.since ≡ now }
        ensures goes_on { is_writing self.old.phase ≡ true → self.new.since ≡ self.old.since }
        ensures left { EndsAt (min (as_nanos self.new.since + as_nanos self.new.waits.response) max_nanos) (as_nanos now) result }
    {
        if self.phase != Phase::Response {
            self.phase = Phase::Response;
            self.since = now;
        }
        self.left(now)
    }
}

/// The pace of a question: one wait for all of it, which runs from its first call.
#[derive(Drop)]
pub struct QuestionPace {
    wait: Duration,
    until: Option<Deadline>,
}

impl QuestionPace {
    /// Of a question that wasn't begun.
    pub fn new(wait: Duration) -> QuestionPace {
        QuestionPace { wait, until: None }
    }

    fn left(&mut self, now: Duration) -> Option<Duration> {
        let until = match self.until {
            Some(until) => until,
            None => Deadline::after(now, self.wait),
        };
        self.until = Some(until);
        until.left(now)
    }
}

impl Pace for QuestionPace {
    fn to_read(&mut self, now: Duration) -> Option<Duration> {
        self.left(now)
    }

    fn has_read(&mut self) {}

    fn to_write(&mut self, now: Duration) -> Option<Duration> {
        self.left(now)
    }
}
