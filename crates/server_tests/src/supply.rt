//! A stream of large requests that tells nothing of its bytes.
ghost use Rattle.std.specs.Prelude.{None, refl};
ghost use Rattle.std.proofs.Common.{arith};

use ps_ports::fault::Failed;
use ps_ports::sink::Sink;
use ps_ports::source::Source;
use ps_ports::stream::Stream;

static HEAD: &[u8] = b"PUT /b HTTP/1.1\r\nHost: b\r\nContent-Length: 1048523\r\n\r\n";

/// How many bytes each request has: its head's 53, and the body's.
const LENGTH: usize = 1_048_576;

/// So many requests, of the first of which so many bytes were read. Bodies are what lies in the
/// buffers. What is written is let go.
#[derive(Drop)]
pub struct Supply {
    pub requests: u64,
    pub place: usize,
}

impl Source for Supply {
    ghost left = { λ _. None };

    ghost read_faults = { λ _. 0 };

    ghost kept = { λ _ _. Unit {0} };

    fn read(&mut self, buf: &mut [u8]) -> Result<usize, Failed> {
        if self.requests == 0 {
            return Ok(0);
        }
        if self.place < HEAD.len() {
            let part = &HEAD[self.place..];
            let count = buf.len().min(part.len());
            buf[..count].copy_from_slice(&part[..count]);
            self.place += count;
            return Ok(count);
        }
        let left = LENGTH.saturating_sub(self.place);
        if buf.len() < left {
            self.place += buf.len();
            return Ok(buf.len());
        }
        self.place = 0;
        self.requests -= 1;
        Ok(left)
    }

    ghost kept_refl = { λ _. tt };

    ghost kept_trans = { λ _ _ _ _ _. tt };

    ghost read_faults_fit = { λ _. omega arith };
}

impl Sink for Supply {
    ghost written = { λ _. None };

    ghost write_faults = { λ _. 0 };

    ghost sink_kept = { λ _ _. Unit {0} };

    fn write(&mut self, bytes: &[u8]) -> Result<usize, Failed> {
        Ok(bytes.len())
    }

    ghost sink_kept_refl = { λ _. tt };

    ghost sink_kept_trans = { λ _ _ _ _ _. tt };

    ghost write_faults_fit = { λ _. omega arith };
}

impl Stream for Supply {
    ghost reads_keep = { λ _ _ _. (refl, refl) };

    ghost writes_keep = { λ _ _ _. (refl, refl) };
}
