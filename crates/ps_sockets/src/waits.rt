//! How long sockets wait.
ghost use Rattle.std.specs.Prelude.{◌≡◌, ◌*◌};
ghost use Rattle.std.specs.Duration.{as_nanos};

use std::time::Duration;

/// How long a host waits for its clients.
#[derive(Clone, Copy, Debug, PartialEq, Eq)]
pub struct Waits {
    /// For the whole head of a connection's first message, from when the connection was taken.
    pub head: Duration,
    /// For the first byte of a message.
    pub silence: Duration,
    /// For the last byte of a message, from the first wait for it.
    pub message: Duration,
    /// For the last byte of a response to be taken, from its first one.
    pub response: Duration,
    /// For what a client still sends as its connection ends.
    pub parting: Duration,
}

impl Waits {
    /// The waits that the program is to use.
    pub fn of_program() -> Waits
        ensures head { as_nanos result.head ≡ 5 * 1_000_000_000 }
        ensures silence { as_nanos result.silence ≡ 2 * 1_000_000_000 }
        ensures message { as_nanos result.message ≡ 20 * 1_000_000_000 }
        ensures response { as_nanos result.response ≡ 20 * 1_000_000_000 }
        ensures parting { as_nanos result.parting ≡ 1 * 1_000_000_000 }
    {
        Waits {
            head: Duration::from_secs(5),
            silence: Duration::from_secs(2),
            message: Duration::from_secs(20),
            response: Duration::from_secs(20),
            parting: Duration::from_secs(1),
        }
    }
}

/// How long a host waits for its peers.
#[derive(Clone, Copy, Debug, PartialEq, Eq)]
pub struct LinkWaits {
    /// For a connection, whatever the number of addresses.
    pub connect: Duration,
    /// From the first byte sent to the last one read.
    pub question: Duration,
    /// How long a peer isn't asked after a connection to it failed.
    pub rest: Duration,
}

impl LinkWaits {
    /// The waits that the program is to use.
    pub fn of_program() -> LinkWaits
        ensures connect { as_nanos result.connect ≡ 3 * 1_000_000_000 }
        ensures question { as_nanos result.question ≡ 8 * 1_000_000_000 }
        ensures rest { as_nanos result.rest ≡ 5 * 1_000_000_000 }
    {
        LinkWaits {
            connect: Duration::from_secs(3),
            question: Duration::from_secs(8),
            rest: Duration::from_secs(5),
        }
    }
}
