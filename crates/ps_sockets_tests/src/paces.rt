//! Tests of the ends of waits, with a clock that a test moves on.
use ps_ports::sink::Sink;
use ps_ports::source::Source;
use ps_sockets::pace::{MessagePace, Pace, QuestionPace};
use ps_sockets::socket::Socket;
use ps_sockets::timed_stream::TimedStream;
use ps_sockets::waits::Waits;
use std::cell::Cell;
use std::io;
use std::io::ErrorKind;
use std::rt::Clock as SystemTimes;
use std::test::Fail;
use std::time::Duration;

// A steady time in milliseconds.
struct Hand<'a>(&'a Cell<u64>);

impl Drop for Hand<'_> {
    fn drop(self) {
        let Hand(_) = self;
    }
}

impl SystemTimes for Hand<'_> {
    fn monotonic(&self) -> io::Result<Duration> {
        Ok(Duration::from_millis(self.0.get()))
    }

    fn since_1970(&self) -> io::Result<Duration> {
        Err(ErrorKind::Other.into())
    }
}

// A socket that takes so many milliseconds for each byte, either way.
struct Trickle<'a> {
    hand: &'a Cell<u64>,
    each: u64,
}

impl Drop for Trickle<'_> {
    fn drop(self) {
        let Trickle { hand: _, each: _ } = self;
    }
}

impl Trickle<'_> {
    // One byte, if there is time for it.
    fn pass(&mut self, wait: Duration) -> io::Result<()> {
        let wait = wait
            .as_secs()
            .saturating_mul(1_000)
            .saturating_add(u64::from(wait.subsec_millis()));
        self.hand
            .set(self.hand.get().saturating_add(wait.min(self.each)));
        if self.each > wait {
            return Err(ErrorKind::WouldBlock.into());
        }
        Ok(())
    }
}

impl Socket for Trickle<'_> {
    ghost use Rattle.std.specs.Prelude.{None};

    ghost remaining = { λ _. None };

    ghost contents = { λ _. None };

    fn read_within(&mut self, buf: &mut [u8], wait: Duration) -> io::Result<usize> {
        if buf.is_empty() {
            return Ok(0);
        }
        self.pass(wait)?;
        buf[0] = b'x';
        Ok(1)
    }

    fn write_within(&mut self, bytes: &[u8], wait: Duration) -> io::Result<usize> {
        if bytes.is_empty() {
            return Ok(0);
        }
        self.pass(wait)?;
        Ok(1)
    }

    fn shut_writing(&mut self) -> io::Result<()> {
        Ok(())
    }
}

// How many of so many reads bring a byte before one fails.
fn count_reads<S: Source>(source: &mut S, most: u64) -> u64 {
    let mut buf = [0; 8];
    for count in 0..most {
        if source.read(&mut buf) != Ok(1) {
            return count;
        }
    }
    most
}

fn count_writes<S: Sink>(sink: &mut S, most: u64) -> u64 {
    for count in 0..most {
        if sink.write(b"response") != Ok(1) {
            return count;
        }
    }
    most
}

fn stream<'a, P: Pace>(
    hand: &'a Cell<u64>,
    each: u64,
    pace: P,
) -> TimedStream<Trickle<'a>, Hand<'a>, P> {
    TimedStream::new(Trickle { hand, each }, Hand(hand), pace)
}

// Thirteen bytes take 19.5 seconds; the next one would come behind the end.
#[test]
fn a_message_that_trickles(rt: HostRuntime) -> Result<(), Fail> {
    let hand = Cell::new(0);
    let mut stream = stream(&hand, 1_500, MessagePace::new(Waits::of_program()));
    assert_eq!(rt; count_reads(&mut stream, 100), 13);
    assert_eq!(rt; hand.get(), 20_000);
    assert_eq!(rt; count_reads(&mut stream, 100), 0);
    assert_eq!(rt; hand.get(), 20_000);
    Ok(())
}

#[test]
fn a_silent_connection(rt: HostRuntime) -> Result<(), Fail> {
    let hand = Cell::new(0);
    let mut stream = stream(&hand, 3_000, MessagePace::new(Waits::of_program()));
    assert_eq!(rt; count_reads(&mut stream, 100), 0);
    assert_eq!(rt; hand.get(), 2_000);
    Ok(())
}

// A response that is begun ends the message before it, and the other way round.
#[test]
fn messages_and_responses(rt: HostRuntime) -> Result<(), Fail> {
    let hand = Cell::new(0);
    let mut stream = stream(&hand, 1_500, MessagePace::new(Waits::of_program()));
    assert_eq!(rt; count_reads(&mut stream, 10), 10);
    assert_eq!(rt; count_writes(&mut stream, 10), 10);
    assert_eq!(rt; count_reads(&mut stream, 10), 10);
    assert_eq!(rt; hand.get(), 45_000);
    assert_eq!(rt; count_writes(&mut stream, 100), 13);
    assert_eq!(rt; hand.get(), 65_000);
    Ok(())
}

// One wait for what is sent and what is read.
#[test]
fn a_question_that_trickles(rt: HostRuntime) -> Result<(), Fail> {
    let hand = Cell::new(0);
    let mut stream = stream(&hand, 1_500, QuestionPace::new(Duration::from_secs(8)));
    assert_eq!(rt; count_writes(&mut stream, 2), 2);
    assert_eq!(rt; count_reads(&mut stream, 100), 3);
    assert_eq!(rt; hand.get(), 8_000);
    Ok(())
}

// What still comes is read for a second, not longer.
#[test]
fn a_parting(rt: HostRuntime) -> Result<(), Fail> {
    let hand = Cell::new(0);
    let slow = stream(&hand, 300, MessagePace::new(Waits::of_program()));
    slow.part(Waits::of_program().parting);
    assert_eq!(rt; hand.get(), 1_000);
    Ok(())
}

// A clock that can't be read.
#[derive(Drop)]
struct Broken;

impl SystemTimes for Broken {
    fn monotonic(&self) -> io::Result<Duration> {
        Err(ErrorKind::Other.into())
    }

    fn since_1970(&self) -> io::Result<Duration> {
        Err(ErrorKind::Other.into())
    }
}

#[test]
fn a_time_that_is_not_known(rt: HostRuntime) -> Result<(), Fail> {
    let hand = Cell::new(0);
    let socket = Trickle {
        hand: &hand,
        each: 1,
    };
    let mut stream = TimedStream::new(socket, Broken, MessagePace::new(Waits::of_program()));
    assert_eq!(rt;
        (count_reads(&mut stream, 1), count_writes(&mut stream, 1)),
        (0, 0)
    );
    Ok(())
}
