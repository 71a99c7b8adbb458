//! A stream over a socket, each wait of which has an end.
ghost use Rattle.std.specs.Prelude.{◌≡◌, OnErr, OnOk, IfOk, if◌then◌else◌};
ghost use Rattle.std.specs.Io.{ReadsAtMost, WritesAtMost};
ghost use Rattle.std.specs.Io.KnownBytes.{ReadConsumes, WriteAppends};
ghost use Rattle.ps_ports.specs.Causes.{HasCause, CountsNothing, counted, nothing_of, raised};

use crate::deadline::Deadline;
use crate::pace::Pace;
use crate::socket::Socket;
use ps_ports::fault::Failed;
use ps_ports::faults::Faults;
use ps_ports::sink::Sink;
use ps_ports::source::Source;
use ps_ports::stream::Stream;
use std::io;
use std::io::ErrorKind;
use std::rt::Clock as SystemTimes;
use std::time::Duration;

// How often a call that a signal interrupts is made.
const TRIES: u32 = 1_000;

/// How many bytes that a client still sends are read as its connection ends.
pub const MOST_DRAINED: usize = 65_536;

/// A stream over a socket. A read or a write may wait as long as the pace says, and fails then. Each error of the socket
/// is counted, as each wait that is over and each reading of the time that fails.
#[derive(Drop)]
pub struct TimedStream<S, T, P> {
    socket: S,
    times: T,
    pace: P,
    read_faults: Faults,
    write_faults: Faults,
}

impl<S: Socket, T: SystemTimes + Drop, P: Pace> TimedStream<S, T, P> {
    /// A stream over the socket, without a fault so far.
    pub fn new(socket: S, times: T, pace: P) -> TimedStream<S, T, P>
        ensures left { ⟦<TimedStream<S, T, P> as Source>⟧.left result ≡ S.remaining socket }
        ensures written { ⟦<TimedStream<S, T, P> as Sink>⟧.written result ≡ S.contents socket }
        ensures read_faults { ⟦<TimedStream<S, T, P> as Source>⟧.read_faults result ≡ 0 }
        ensures write_faults { ⟦<TimedStream<S, T, P> as Sink>⟧.write_faults result ≡ 0 }
    {
        TimedStream {
            socket,
            times,
            pace,
            read_faults: Faults::none(),
            write_faults: Faults::none(),
        }
    }

    // One call of the socket, in the time that is left.
    fn read_in_time(&mut self, buf: &mut [u8]) -> io::Result<usize>
        ensures bound { ReadsAtMost result buf.new }
        ensures bytes { ReadConsumes (S.remaining self.old.socket) (S.remaining self.new.socket) result buf.new }
        ensures contents { S.contents self.new.socket ≡ S.contents self.old.socket }
        ensures read_faults { self.new.read_faults ≡ self.old.read_faults }
        ensures write_faults { self.new.write_faults ≡ self.old.write_faults }
    {
        let now = self.times.monotonic()?;
        let Some(wait) = self.pace.to_read(now) else {
            return Err(ErrorKind::TimedOut.into());
        };
        let answer = self.socket.read_within(buf, wait);
        if matches!(answer, Ok(count) if count > 0) {
            self.pace.has_read();
        }
        answer
    }

    // The same; an error is one fault.
    fn read_once(&mut self, buf: &mut [u8]) -> io::Result<usize>
        ensures bound { ReadsAtMost result buf.new }
        ensures bytes { ReadConsumes (S.remaining self.old.socket) (S.remaining self.new.socket) result buf.new }
        ensures contents { S.contents self.new.socket ≡ S.contents self.old.socket }
        ensures write_faults { self.new.write_faults ≡ self.old.write_faults }
        ensures ok { OnOk result (self.new.read_faults ≡ self.old.read_faults) }
        ensures err { OnErr result (self.new.read_faults ≡ raised self.old.read_faults) }
    {
        let answer = self.read_in_time(buf);
        if answer.is_err() {
            self.read_faults.raise();
        }
        answer
    }

    // One call of the socket, in the time that is left.
    fn write_in_time(&mut self, bytes: &[u8]) -> io::Result<usize>
        ensures bound { WritesAtMost result bytes.now }
        ensures bytes { WriteAppends (S.contents self.old.socket) (S.contents self.new.socket) result bytes.now }
        ensures remaining { S.remaining self.new.socket ≡ S.remaining self.old.socket }
        ensures read_faults { self.new.read_faults ≡ self.old.read_faults }
        ensures write_faults { self.new.write_faults ≡ self.old.write_faults }
    {
        let now = self.times.monotonic()?;
        let Some(wait) = self.pace.to_write(now) else {
            return Err(ErrorKind::TimedOut.into());
        };
        self.socket.write_within(bytes, wait)
    }

    // The same; an error is one fault, and so is 0 of a piece that isn't empty.
    fn write_once(&mut self, bytes: &[u8]) -> io::Result<usize>
        ensures bound { WritesAtMost result bytes.now }
        ensures bytes { WriteAppends (S.contents self.old.socket) (S.contents self.new.socket) result bytes.now }
        ensures remaining { S.remaining self.new.socket ≡ S.remaining self.old.socket }
        ensures read_faults { self.new.read_faults ≡ self.old.read_faults }
        ensures ok { IfOk result (λ n. self.new.write_faults ≡ (if nothing_of n bytes.now then raised self.old.write_faults else self.old.write_faults)) }
        ensures err { OnErr result (self.new.write_faults ≡ raised self.old.write_faults) }
    {
        let answer = self.write_in_time(bytes);
        match answer {
            Ok(0) if !bytes.is_empty() => self.write_faults.raise(),
            Ok(_) => {}
            Err(_) => self.write_faults.raise(),
        }
        answer
    }

    // What is left of a wait, where the time can be read.
    fn left(&self, until: Deadline) -> Option<Duration> {
        until.left(self.times.monotonic().ok()?)
    }

    /// Ends the connection. Nothing more is written; what still comes is read for at most so long, up to `MOST_DRAINED`
    /// bytes, so that what was written reaches a client that is still sending.
    pub fn part(mut self, wait: Duration) {
        let Ok(now) = self.times.monotonic() else {
            return;
        };
        if self.socket.shut_writing().is_ok() {
            self.drain(Deadline::after(now, wait));
        }
    }

    // Any error ends it.
    fn drain(&mut self, until: Deadline) {
        let mut buf = [0; 4096];
        let mut most = MOST_DRAINED;
        while most > 0 {
            let Some(wait) = self.left(until) else {
                return;
            };
            match self.socket.read_within(&mut buf, wait) {
                Ok(0) | Err(_) => return,
                Ok(count) => most = most.saturating_sub(count),
            }
        }
    }
}

impl<S: Socket, T: SystemTimes + Drop, P: Pace> Source for TimedStream<S, T, P> {
    ghost use Rattle.std.specs.Prelude.{◌≡◌, refl};
    ghost use Rattle.std.proofs.Common.{◌∙◌};
    ghost use Rattle.ps_ports.specs.Causes.{counted, counted_fits};

    ghost left = { λ s. S.remaining s.socket };

    ghost read_faults = { λ s. counted s.read_faults };

    ghost kept = { λ a b. (S.contents b.socket ≡ S.contents a.socket) × (counted b.write_faults ≡ counted a.write_faults) };

    fn read(&mut self, buf: &mut [u8]) -> Result<usize, Failed>
        ensures bound { ReadsAtMost result buf.new }
        ensures bytes { ReadConsumes (S.remaining self.old.socket) (S.remaining self.new.socket) result buf.new }
        ensures cause { HasCause (counted self.old.read_faults) (counted self.new.read_faults) result }
        ensures kept { (S.contents self.new.socket ≡ S.contents self.old.socket) × (counted self.new.write_faults ≡ counted self.old.write_faults) }
    {
        for _ in 0..TRIES {
            match self.read_once(buf) {
                Ok(count) => return Ok(count),
                Err(fault) => {
                    if fault.kind() != ErrorKind::Interrupted {
                        return Err(Failed);
                    }
                }
            }
        }
        Err(Failed)
    }

    ghost kept_refl = { λ _. (refl, refl) };

    ghost kept_trans = { λ _ _ _ p q. (q.0 ∙ p.0, q.1 ∙ p.1) };

    ghost read_faults_fit = { λ s. counted_fits s.read_faults };
}

impl<S: Socket, T: SystemTimes + Drop, P: Pace> Sink for TimedStream<S, T, P> {
    ghost use Rattle.std.specs.Prelude.{◌≡◌, refl};
    ghost use Rattle.std.proofs.Common.{◌∙◌};
    ghost use Rattle.ps_ports.specs.Causes.{counted, counted_fits};

    ghost written = { λ s. S.contents s.socket };

    ghost write_faults = { λ s. counted s.write_faults };

    ghost sink_kept = { λ a b. (S.remaining b.socket ≡ S.remaining a.socket) × (counted b.read_faults ≡ counted a.read_faults) };

    fn write(&mut self, bytes: &[u8]) -> Result<usize, Failed>
        ensures bound { WritesAtMost result bytes.now }
        ensures bytes { WriteAppends (S.contents self.old.socket) (S.contents self.new.socket) result bytes.now }
        ensures cause { HasCause (counted self.old.write_faults) (counted self.new.write_faults) result }
        ensures nothing { CountsNothing (counted self.old.write_faults) (counted self.new.write_faults) result bytes.now }
        ensures kept { (S.remaining self.new.socket ≡ S.remaining self.old.socket) × (counted self.new.read_faults ≡ counted self.old.read_faults) }
    {
        for _ in 0..TRIES {
            match self.write_once(bytes) {
                Ok(count) => return Ok(count),
                Err(fault) => {
                    if fault.kind() != ErrorKind::Interrupted {
                        return Err(Failed);
                    }
                }
            }
        }
        Err(Failed)
    }

    ghost sink_kept_refl = { λ _. (refl, refl) };

    ghost sink_kept_trans = { λ _ _ _ p q. (q.0 ∙ p.0, q.1 ∙ p.1) };

    ghost write_faults_fit = { λ s. counted_fits s.write_faults };
}

impl<S: Socket, T: SystemTimes + Drop, P: Pace> Stream for TimedStream<S, T, P> {
    ghost reads_keep = { λ a b k. k };

    ghost writes_keep = { λ a b k. k };
}
