//! Sockets of connections.
ghost use Rattle.std.specs.Prelude.{◌≡◌, ℕ, List, Option};
ghost use Rattle.std.specs.Io.{ReadsAtMost, WritesAtMost};
ghost use Rattle.std.specs.Io.KnownBytes.{ReadConsumes, WriteAppends};

use std::io;
use std::io::{Read, Write};
use std::net::{Shutdown, TcpStream};
use std::time::Duration;

/// What is read and written with a bound on each wait.
pub trait Socket: Drop {
    // The bytes that are left to read, where they are told.
    ghost remaining: { Self → Option (List ℕ) };

    // The bytes that were written, where they are told.
    ghost contents: { Self → Option (List ℕ) };

    /// Reads as `std::io::Read` does. One that waits longer is an error; so is a wait of 0.
    fn read_within(&mut self, buf: &mut [u8], wait: Duration) -> io::Result<usize>
        ensures bound { ReadsAtMost result buf.new }
        ensures bytes { ReadConsumes (remaining self.old) (remaining self.new) result buf.new }
        ensures kept { contents self.new ≡ contents self.old };

    /// Writes as `std::io::Write` does. One that waits longer is an error; so is a wait of 0.
    fn write_within(&mut self, bytes: &[u8], wait: Duration) -> io::Result<usize>
        ensures bound { WritesAtMost result bytes.now }
        ensures bytes { WriteAppends (contents self.old) (contents self.new) result bytes.now }
        ensures kept { remaining self.new ≡ remaining self.old };

    /// Tells the other end that nothing more is written.
    fn shut_writing(&mut self) -> io::Result<()>;
}

impl Socket for TcpStream {
    ghost use Rattle.std.specs.Prelude.{None};

    ghost remaining = { λ _. None };

    ghost contents = { λ _. None };

    fn read_within(&mut self, buf: &mut [u8], wait: Duration) -> io::Result<usize> {
        self.set_read_timeout(Some(wait))?;
        self.read(buf)
    }

    fn write_within(&mut self, bytes: &[u8], wait: Duration) -> io::Result<usize> {
        self.set_write_timeout(Some(wait))?;
        self.write(bytes)
    }

    fn shut_writing(&mut self) -> io::Result<()> {
        self.shutdown(Shutdown::Write)
    }
}
