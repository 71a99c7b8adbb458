//! Tests of what no clause says: that calls succeed with ample memory, and real streams.
ghost use Rattle.std.specs.Prelude.{◌≡◌, [], IfOk, IfSome, IsTrue, Some};
ghost use Rattle.std.specs.Io.KnownBytes.{Appends};

use ps_ports::adapters::{ReaderSource, WriterSink};
use ps_ports::all::{read_all, write_all};
use ps_ports::fault::{AllFault, Failed, WriteFault};
use ps_ports::memory_sink::MemorySink;
use ps_ports::memory_source::MemorySource;
use ps_ports::memory_stream::MemoryStream;
use ps_ports::sink::Sink;
use ps_ports::source::Source;
use ps_ports::stream::Stream;
use std::alloc::{AllocError, Global};
use std::io;
use std::io::{ErrorKind, Read, Write};
use std::process::Abort;
use std::test::Fail;

/// Takes and gives one byte at a time.
#[derive(Drop)]
struct Slow<S> {
    inner: S,
}

impl<S: Source> Source for Slow<S> {
    ghost left = { λ s. S.left s.inner };

    ghost read_faults = { λ s. S.read_faults s.inner };

    ghost kept = { λ a b. S.kept a.inner b.inner };

    fn read(&mut self, buf: &mut [u8]) -> Result<usize, Failed> {
        if buf.is_empty() {
            return self.inner.read(buf);
        }
        self.inner.read(&mut buf[..1])
    }

    ghost kept_refl = { λ a. S.kept_refl a.inner };

    ghost kept_trans = { λ a b c. S.kept_trans a.inner b.inner c.inner };

    ghost read_faults_fit = { λ a. S.read_faults_fit a.inner };
}

impl<K: Sink> Sink for Slow<K> {
    ghost written = { λ s. K.written s.inner };

    ghost write_faults = { λ s. K.write_faults s.inner };

    ghost sink_kept = { λ a b. K.sink_kept a.inner b.inner };

    fn write(&mut self, bytes: &[u8]) -> Result<usize, Failed> {
        if bytes.is_empty() {
            return self.inner.write(bytes);
        }
        self.inner.write(&bytes[..1])
    }

    ghost sink_kept_refl = { λ a. K.sink_kept_refl a.inner };

    ghost sink_kept_trans = { λ a b c. K.sink_kept_trans a.inner b.inner c.inner };

    ghost write_faults_fit = { λ a. K.write_faults_fit a.inner };
}

fn source_of(alloc: Global, held: &[u8], failing: &[u64]) -> Result<MemorySource, AllocError> {
    let held = held.to_vec(alloc)?;
    let failing = failing.to_vec(alloc)?;
    Ok(MemorySource::new(held, failing))
}

fn slow_source(
    alloc: Global,
    held: &[u8],
    failing: &[u64],
) -> Result<Slow<MemorySource>, AllocError> {
    Ok(Slow {
        inner: source_of(alloc, held, failing)?,
    })
}

fn slow_sink(alloc: Global, failing: &[u64]) -> Result<Slow<MemorySink>, AllocError> {
    let failing = failing.to_vec(alloc)?;
    let before = b">".to_vec(alloc)?;
    Ok(Slow {
        inner: MemorySink::new(before, failing),
    })
}

fn is_all(answer: Result<Vec<u8>, AllFault>, wanted: &[u8]) -> bool {
    match answer {
        Ok(bytes) => bytes.as_slice() == wanted,
        Err(_) => false,
    }
}

fn reads_slowly(alloc: Global, most: u64) -> Result<bool, AllocError> {
    let mut slow = slow_source(alloc, b"abc", &[])?;
    Ok(is_all(read_all(alloc, &mut slow, most), b"abc"))
}

fn reads_at_once(alloc: Global, most: u64) -> Result<bool, AllocError> {
    let mut source = source_of(alloc, b"abc", &[])?;
    Ok(is_all(read_all(alloc, &mut source, most), b"abc"))
}

fn is_too_long_slowly(alloc: Global, most: u64) -> Result<bool, AllocError> {
    let mut slow = slow_source(alloc, b"abc", &[])?;
    Ok(read_all(alloc, &mut slow, most).is_err_and(is_too_long))
}

fn is_too_long_at_once(alloc: Global, most: u64) -> Result<bool, AllocError> {
    let mut source = source_of(alloc, b"abc", &[])?;
    Ok(read_all(alloc, &mut source, most).is_err_and(is_too_long))
}

static WITHIN: [u64; 3] = [3, 4, u64::MAX];

static TOO_FEW: [u64; 3] = [0, 1, 2];

#[test]
fn reads_to_the_end(rt: HostRuntime) -> Result<(), Fail> {
    let alloc = rt.alloc();
    for most in &WITHIN {
        assert!(rt; reads_slowly(alloc, *most)?, "slowly, {most}");
        assert!(rt; reads_at_once(alloc, *most)?, "at once, {most}");
    }
    for most in &TOO_FEW {
        assert!(rt; is_too_long_slowly(alloc, *most)?, "slowly, {most}");
        assert!(rt; is_too_long_at_once(alloc, *most)?, "at once, {most}");
    }
    let mut empty = slow_source(alloc, b"", &[])?;
    assert!(rt; is_all(read_all(alloc, &mut empty, 0), b""));
    Ok(())
}

fn is_too_long(fault: AllFault) -> bool {
    fault == AllFault::TooLong
}

fn is_read_fault(fault: AllFault) -> bool {
    fault == AllFault::ReadFault
}

#[test]
fn reads_more_than_one_buffer(rt: HostRuntime) -> Result<(), Fail> {
    let alloc = rt.alloc();
    let mut held = Vec::new(alloc);
    for count in 0..10_000u32 {
        held.push((count % 251) as u8)?;
    }
    let mut source = source_of(alloc, held.as_slice(), &[])?;
    assert!(rt; is_all(read_all(alloc, &mut source, 10_000), held.as_slice()));
    assert_eq!(rt; source.calls(), 4);
    Ok(())
}

/// The source fails at the call with this number, and then gives this rest.
fn expect_read_fault(
    rt: &impl Abort,
    alloc: Global,
    mut slow: Slow<MemorySource>,
    call: u64,
    rest: &[u8],
) {
    assert!(rt;
        read_all(alloc, &mut slow, 3).is_err_and(is_read_fault),
        "{call}"
    );
    assert!(rt;
        slow.inner.faults() == 1 && slow.inner.calls() == call,
        "{call}"
    );
    assert!(rt; slow.inner.left() == rest, "{call}");
    assert!(rt; is_all(read_all(alloc, &mut slow, 3), rest), "after {call}");
}

// Three reads give a byte each, and the fourth gives the end.
#[test]
fn reading_fails_at_each_place(rt: HostRuntime) -> Result<(), Fail> {
    let alloc = rt.alloc();
    let held = b"abc".as_slice();
    for call in 1..5u64 {
        let slow = slow_source(alloc, held, &[call])?;
        expect_read_fault(&rt, alloc, slow, call, &held[call as usize - 1..]);
    }
    Ok(())
}

/// The sink fails at the write with this number, and the bytes before it were written.
fn expect_write_fault(rt: &impl Abort, mut slow: Slow<MemorySink>, call: u64, written: &[u8]) {
    assert_eq!(rt; write_all(&mut slow, b"abc"), Err(WriteFault), "{call}");
    assert!(rt;
        slow.inner.faults() == 1 && slow.inner.calls() == call,
        "{call}"
    );
    assert!(rt; slow.inner.written() == written, "{call}");
    assert!(rt; !slow.inner.starved(), "{call}");
}

#[test]
fn writing_fails_at_each_place(rt: HostRuntime) -> Result<(), Fail> {
    let alloc = rt.alloc();
    let wanted = b">abc".as_slice();
    for call in 1..4u64 {
        let slow = slow_sink(alloc, &[call])?;
        expect_write_fault(&rt, slow, call, &wanted[..call as usize]);
    }
    let mut slow = slow_sink(alloc, &[4])?;
    assert_eq!(rt; write_all(&mut slow, b"abc"), Ok(()));
    assert!(rt; slow.inner.written() == wanted && slow.inner.faults() == 0);
    Ok(())
}

/// Reads all and writes it back, both by a reference to the stream, and tells whether that was done.
fn echo<T: Stream>(alloc: Global, stream: &mut T, most: u64) -> bool
    ensures { IsTrue result → IfSome (T.Source.left stream.old) (λ held.
        Appends (T.Sink.written stream.old) (T.Sink.written stream.new) held × (T.Source.left stream.new ≡ Some [])) }
{
    let mut lent = &mut *stream;
    match read_all(alloc, &mut lent, most) {
        Ok(bytes) => write_all(&mut lent, bytes.as_slice()).is_ok(),
        Err(_) => false,
    }
}

fn stream(alloc: Global, failing: &[u64]) -> Result<MemoryStream, AllocError> {
    let held = b"abc".to_vec(alloc)?;
    let failing = failing.to_vec(alloc)?;
    Ok(MemoryStream::new(alloc, held, failing))
}

#[test]
fn a_stream_is_read_and_written(rt: HostRuntime) -> Result<(), Fail> {
    let alloc = rt.alloc();
    let mut stream = stream(alloc, &[])?;
    assert!(rt; echo(alloc, &mut stream, 3));
    assert!(rt; stream.written() == b"abc".as_slice() && stream.left().is_empty());
    // Two reads and a write.
    assert_eq!(rt; stream.calls(), 3);
    assert!(rt; !stream.starved());
    Ok(())
}

// The first write is call 3, and the last read is call 5.
#[test]
fn a_stream_numbers_reads_and_writes_together(rt: HostRuntime) -> Result<(), Fail> {
    let alloc = rt.alloc();
    let mut stream = stream(alloc, &[3, 5])?;
    assert!(rt; !echo(alloc, &mut stream, 3));
    assert!(rt; stream.read_faults() == 0 && stream.write_faults() == 1);
    assert_eq!(rt; stream.write(b"d"), Ok(1));
    assert_eq!(rt; stream.read(&mut [0]), Err(Failed));
    assert!(rt; stream.read_faults() == 1 && stream.write_faults() == 1);
    assert!(rt; stream.written() == b"d".as_slice());
    Ok(())
}

#[test]
fn adapters_on_a_pipe(rt: HostRuntime) -> Result<(), Fail> {
    let (reader, writer) = io::pipe(&rt)?;
    let mut sink = WriterSink::new(writer);
    assert_eq!(rt; write_all(&mut sink, b"through the system"), Ok(()));
    assert_eq!(rt; sink.faults(), 0);
    drop(sink);
    let mut source = ReaderSource::new(reader);
    assert!(rt; is_all(read_all(rt.alloc(), &mut source, 18), b"through the system"));
    assert_eq!(rt; source.faults(), 0);
    Ok(())
}

#[test]
fn a_pipe_that_nobody_reads(rt: HostRuntime) -> Result<(), Fail> {
    let (reader, writer) = io::pipe(&rt)?;
    drop(reader);
    let mut sink = WriterSink::new(writer);
    assert_eq!(rt; write_all(&mut sink, b"lost"), Err(WriteFault));
    assert_eq!(rt; sink.faults(), 1);
    Ok(())
}

#[test]
fn adapters_on_the_standard_streams(rt: HostRuntime) {
    let mut source = ReaderSource::new(rt.stdin());
    assert_eq!(rt; source.read(&mut []), Ok(0));
    assert_eq!(rt; source.faults(), 0);
    let mut sink = WriterSink::new(rt.stdout());
    assert_eq!(rt; write_all(&mut sink, b"to standard output\n"), Ok(()));
    assert_eq!(rt; sink.faults(), 0);
}

/// Answers with these errors, one after the other, and then takes or gives nothing.
#[derive(Drop)]
struct Interrupted {
    errors: Vec<ErrorKind>,
}

impl Interrupted {
    fn next(&mut self) -> io::Result<usize>
        ensures { IfOk result (λ n. n ≡ 0) }
    {
        match self.errors.pop() {
            Some(kind) => Err(kind.into()),
            None => Ok(0),
        }
    }
}

impl Read for Interrupted {
    fn read(&mut self, _buf: &mut [u8]) -> io::Result<usize> {
        self.next()
    }
}

impl Write for Interrupted {
    fn write(&mut self, _bytes: &[u8]) -> io::Result<usize> {
        self.next()
    }

    fn flush(&mut self) -> io::Result<()> {
        Ok(())
    }
}

fn is_read_again(
    alloc: Global,
    then: ErrorKind,
    wanted: Result<usize, Failed>,
) -> Result<bool, AllocError> {
    let errors = [then, ErrorKind::Interrupted].to_vec(alloc)?;
    let mut source = ReaderSource::new(Interrupted { errors });
    Ok(source.read(&mut [0]) == wanted && source.faults() == 2)
}

#[test]
fn a_read_that_is_interrupted_is_made_again(rt: HostRuntime) -> Result<(), Fail> {
    let alloc = rt.alloc();
    assert!(rt; is_read_again(alloc, ErrorKind::Interrupted, Ok(0))?);
    assert!(rt; is_read_again(alloc, ErrorKind::BrokenPipe, Err(Failed))?);
    Ok(())
}

fn is_written_again(
    alloc: Global,
    then: ErrorKind,
    wanted: Result<usize, Failed>,
) -> Result<bool, AllocError> {
    let errors = [then, ErrorKind::Interrupted].to_vec(alloc)?;
    let mut sink = WriterSink::new(Interrupted { errors });
    let again = sink.write(b"") == wanted && sink.faults() == 2;
    // It takes none of a piece that isn't empty.
    let nothing = write_all(&mut sink, b"a") == Err(WriteFault) && sink.faults() == 3;
    Ok(again && nothing)
}

#[test]
fn a_write_that_is_interrupted_is_made_again(rt: HostRuntime) -> Result<(), Fail> {
    let alloc = rt.alloc();
    assert!(rt; is_written_again(alloc, ErrorKind::Interrupted, Ok(0))?);
    assert!(rt; is_written_again(alloc, ErrorKind::BrokenPipe, Err(Failed))?);
    Ok(())
}
