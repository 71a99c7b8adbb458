//! Adapters over readers and writers of std, such as standard input and output. What a real file
//! holds is told nowhere.
ghost use Rattle.std.specs.Prelude.{◌≡◌, ◌≤◌, OnErr, OnOk, IfOk, if◌then◌else◌};
ghost use Rattle.std.specs.Io.{ReadsAtMost, WritesAtMost};
ghost use Rattle.std.specs.Io.KnownBytes.{ReadConsumes, WriteAppends};
ghost use Rattle.ps_ports.specs.Causes.{HasCause, CountsNothing, counted, nothing_of, raised, raised_by};

use crate::fault::Failed;
use crate::faults::Faults;
use crate::sink::Sink;
use crate::source::Source;
use std::io;
use std::io::{ErrorKind, Read, Write};

// How often a call that a signal interrupts is made.
const TRIES: u32 = 1_000;

/// A source over a reader of std, such as standard input. Each error of the reader is counted, and
/// a read that a signal interrupts is tried again, up to 1,000 times.
#[derive(Drop)]
pub struct ReaderSource<R> {
    reader: R,
    faults: Faults,
}

impl<R: Read> ReaderSource<R> {
    /// A source over the reader, without a fault so far.
    pub fn new(reader: R) -> ReaderSource<R>
        ensures left { ⟦<ReaderSource<R> as Source>⟧.left result ≡ R.remaining reader }
        ensures faults { ⟦<ReaderSource<R> as Source>⟧.read_faults result ≡ 0 }
    {
        ReaderSource {
            reader,
            faults: Faults::none(),
        }
    }

    /// How many errors the reader gave.
    pub fn faults(&self) -> u64
        ensures { result ≡ ⟦<ReaderSource<R> as Source>⟧.read_faults self.now }
    {
        self.faults.count()
    }

    // One call of the reader. Its error is one fault.
    fn read_once(&mut self, buf: &mut [u8]) -> io::Result<usize>
        ensures bound { ReadsAtMost result buf.new }
        ensures bytes { ReadConsumes (R.remaining self.old.reader) (R.remaining self.new.reader) result buf.new }
        ensures ok { OnOk result (self.new.faults ≡ self.old.faults) }
        ensures err { OnErr result (self.new.faults ≡ raised self.old.faults) }
    {
        let answer = self.reader.read(buf);
        if answer.is_err() {
            self.faults.raise();
        }
        answer
    }
}

impl<R: Read> Source for ReaderSource<R> {
    ghost use Rattle.ps_ports.specs.Causes.{counted, counted_fits};

    ghost left = { λ s. R.remaining s.reader };

    ghost read_faults = { λ s. counted s.faults };

    ghost kept = { λ _ _. Unit {0} };

    fn read(&mut self, buf: &mut [u8]) -> Result<usize, Failed>
        ensures bound { ReadsAtMost result buf.new }
        ensures bytes { ReadConsumes (R.remaining self.old.reader) (R.remaining self.new.reader) result buf.new }
        ensures cause { HasCause (counted self.old.faults) (counted self.new.faults) result }
        ensures kept { Unit {0} }

        // One fault for each error, of at most 1,000.
        ensures few { counted self.new.faults ≤ raised_by 1000 (counted self.old.faults) }
    {
        for _ in 0..TRIES {
            match self.read_once(buf) {
                Ok(count) => return Ok(count),
                Err(fault) => {
                    if fault.kind() != ErrorKind::Interrupted {
                        return Err(Failed);
                    }
                }
            }
        }
        Err(Failed)
    }

    ghost kept_refl = { λ _. tt };

    ghost kept_trans = { λ _ _ _ _ _. tt };

    ghost read_faults_fit = { λ s. counted_fits s.faults };
}

/// A sink over a writer of std, such as standard output. Each error of the writer is counted, and
/// so is 0 of a piece that isn't empty. A write that a signal interrupts is tried again, up to 1,000
/// times.
#[derive(Drop)]
pub struct WriterSink<W> {
    writer: W,
    faults: Faults,
}

impl<W: Write> WriterSink<W> {
    /// A sink over the writer, without a fault so far.
    pub fn new(writer: W) -> WriterSink<W>
        ensures written { ⟦<WriterSink<W> as Sink>⟧.written result ≡ W.contents writer }
        ensures faults { ⟦<WriterSink<W> as Sink>⟧.write_faults result ≡ 0 }
    {
        WriterSink {
            writer,
            faults: Faults::none(),
        }
    }

    /// How many errors the writer gave.
    pub fn faults(&self) -> u64
        ensures { result ≡ ⟦<WriterSink<W> as Sink>⟧.write_faults self.now }
    {
        self.faults.count()
    }

    // One call of the writer. Its error is one fault, and so is 0 of a piece that isn't empty.
    fn write_once(&mut self, bytes: &[u8]) -> io::Result<usize>
        ensures bound { WritesAtMost result bytes.now }
        ensures bytes { WriteAppends (W.contents self.old.writer) (W.contents self.new.writer) result bytes.now }
        ensures ok { IfOk result (λ n. self.new.faults ≡ (if nothing_of n bytes.now then raised self.old.faults else self.old.faults)) }
        ensures err { OnErr result (self.new.faults ≡ raised self.old.faults) }
    {
        let answer = self.writer.write(bytes);
        match answer {
            Ok(0) if !bytes.is_empty() => self.faults.raise(),
            Ok(_) => {}
            Err(_) => self.faults.raise(),
        }
        answer
    }
}

impl<W: Write> Sink for WriterSink<W> {
    ghost use Rattle.ps_ports.specs.Causes.{counted, counted_fits};

    ghost written = { λ s. W.contents s.writer };

    ghost write_faults = { λ s. counted s.faults };

    ghost sink_kept = { λ _ _. Unit {0} };

    fn write(&mut self, bytes: &[u8]) -> Result<usize, Failed>
        ensures bound { WritesAtMost result bytes.now }
        ensures bytes { WriteAppends (W.contents self.old.writer) (W.contents self.new.writer) result bytes.now }
        ensures cause { HasCause (counted self.old.faults) (counted self.new.faults) result }
        ensures nothing { CountsNothing (counted self.old.faults) (counted self.new.faults) result bytes.now }
        ensures kept { Unit {0} }

        // One fault for each error, of at most 1,000.
        ensures few { counted self.new.faults ≤ raised_by 1000 (counted self.old.faults) }
    {
        for _ in 0..TRIES {
            match self.write_once(bytes) {
                Ok(count) => return Ok(count),
                Err(fault) => {
                    if fault.kind() != ErrorKind::Interrupted {
                        return Err(Failed);
                    }
                }
            }
        }
        Err(Failed)
    }

    ghost sink_kept_refl = { λ _. tt };

    ghost sink_kept_trans = { λ _ _ _ _ _. tt };

    ghost write_faults_fit = { λ s. counted_fits s.faults };
}
