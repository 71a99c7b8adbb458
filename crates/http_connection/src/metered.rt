//! A stream of which so many bytes may be read.
ghost use Rattle.std.specs.Prelude.{◌≡◌, ◌+◌, ◌<◌, true, false, refl};
ghost use Rattle.std.proofs.Common.{◌∙◌};
ghost use Rattle.ps_ports.specs.Causes.{counted, counted_fits};
ghost use Rattle.http_connection.specs.Metered.{ReadKept, ReadKept-refl, ReadKept-trans, WriteKept, WriteKept-refl, WriteKept-trans, seen};

use ps_ports::fault::Failed;
use ps_ports::faults::Faults;
use ps_ports::sink::Sink;
use ps_ports::source::Source;
use ps_ports::stream::Stream;

/// How many bytes a connection may send.
pub const MOST_BYTES: usize = 67_108_864;

/// A stream, how many bytes may still be read, and how many reads were refused since none may.
#[derive(Drop)]
pub struct Metered<'a, M> {
    stream: &'a mut M,
    room: usize,
    refusals: Faults,
}

impl<'a, M> Metered<'a, M> {
    pub fn new(stream: &'a mut M) -> Metered<'a, M>
        ensures name { result.stream.ghost_name ≡ stream.entry.ghost_name }
        ensures now { result.stream.now ≡ stream.old }
        ensures room { result.room ≡ 67108864 }
        ensures refusals { result.refusals ≡ 0 }
    {
        Metered {
            stream,
            room: MOST_BYTES,
            refusals: Faults::none(),
        }
    }

    /// Gives the stream back.
    pub fn into_stream(self) -> &'a mut M
        ensures name { result.ghost_name ≡ self.entry.stream.ghost_name }
        ensures now { result.now ≡ self.entry.stream.now }
    {
        let Metered {
            stream,
            room: _,
            refusals: _,
        } = self;
        stream
    }

    /// Whether no more bytes may be read.
    pub fn is_spent(&self) -> bool
        ensures yes { result ≡ true → self.now.room ≡ 0 }
        ensures no { result ≡ false → 0 < self.now.room }
    {
        self.room == 0
    }
}

impl<'a, M: Stream> Source for Metered<'a, M> {
    ghost left = { λ s. M.left s.stream.now };

    ghost read_faults = { λ s. counted (M.read_faults s.stream.now + s.refusals) };

    ghost kept = { λ a b. (b.stream.ghost_name ≡ a.stream.ghost_name)
        × ReadKept (seen M.left M.written M.read_faults M.write_faults a) (seen M.left M.written M.read_faults M.write_faults b) };

    fn read(&mut self, buf: &mut [u8]) -> Result<usize, Failed> {
        if self.room == 0 {
            self.refusals.raise();
            return Err(Failed);
        }
        let most = buf.len().min(self.room);
        match self.stream.read(&mut buf[..most]) {
            Ok(count) => {
                self.room -= count;
                Ok(count)
            }
            Err(_) => Err(Failed),
        }
    }

    ghost kept_refl = { λ a. (refl, ReadKept-refl (seen M.left M.written M.read_faults M.write_faults a)) };

    ghost kept_trans = { λ a b c p q. (q.0 ∙ p.0, ReadKept-trans (seen M.left M.written M.read_faults M.write_faults a) (seen M.left M.written M.read_faults M.write_faults b) (seen M.left M.written M.read_faults M.write_faults c) p.1 q.1) };

    ghost read_faults_fit = { λ s. counted_fits (M.read_faults s.stream.now + s.refusals) };
}

impl<'a, M: Stream> Sink for Metered<'a, M> {
    ghost written = { λ s. M.written s.stream.now };

    ghost write_faults = { λ s. M.write_faults s.stream.now };

    ghost sink_kept = { λ a b. (b.stream.ghost_name ≡ a.stream.ghost_name)
        × WriteKept (seen M.left M.written M.read_faults M.write_faults a) (seen M.left M.written M.read_faults M.write_faults b) };

    fn write(&mut self, bytes: &[u8]) -> Result<usize, Failed> {
        self.stream.write(bytes)
    }

    ghost sink_kept_refl = { λ a. (refl, WriteKept-refl (seen M.left M.written M.read_faults M.write_faults a)) };

    ghost sink_kept_trans = { λ a b c p q. (q.0 ∙ p.0, WriteKept-trans (seen M.left M.written M.read_faults M.write_faults a) (seen M.left M.written M.read_faults M.write_faults b) (seen M.left M.written M.read_faults M.write_faults c) p.1 q.1) };

    ghost write_faults_fit = { λ s. M.write_faults_fit s.stream.now };
}
