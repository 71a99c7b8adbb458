//! The system's clock.
use ps_doors::clock::Clock;
use ps_time::moment::{MAX_MOMENT, Moment};
use std::rt::Clock as SystemTimes;
use std::thread;
use std::time::{Duration, SystemTime, UNIX_EPOCH};

/// The system's clock. Where the time can't be read, or is before 1970, the moment is 0; behind the last moment it is
/// that one.
#[derive(Drop)]
pub struct SystemClock<R> {
    times: R,
    pause: Duration,
}

impl<R: SystemTimes> SystemClock<R> {
    /// `pause` is how long a pause takes.
    pub fn new(times: R, pause: Duration) -> SystemClock<R> {
        SystemClock { times, pause }
    }
}

fn seconds<R: SystemTimes>(times: &R) -> Option<u64> {
    let time = SystemTime::now(times).ok()?;
    let since = time.duration_since(UNIX_EPOCH).ok()?;
    Some(since.as_secs())
}

impl<R: SystemTimes> Clock for SystemClock<R> {
    // Of the system's time nothing is known.
    ghost may_give = { λ _ _. Unit {0} };

    fn now(&self) -> Moment {
        seconds(&self.times).unwrap_or(0).min(MAX_MOMENT)
    }

    fn pause(&self) {
        thread::sleep(&self.times, self.pause);
    }
}
