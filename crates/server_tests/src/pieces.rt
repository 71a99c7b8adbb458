//! A stream that is read and written in small pieces.

use ps_ports::fault::Failed;
use ps_ports::sink::Sink;
use ps_ports::source::Source;
use ps_ports::stream::Stream;

/// Gives and takes at most so many bytes in a call, or any number where that is 0.
#[derive(Drop)]
pub struct Pieces<S> {
    pub inner: S,
    pub most: usize,
}

impl<S: Source> Source for Pieces<S> {
    ghost left = { λ s. S.left s.inner };

    ghost read_faults = { λ s. S.read_faults s.inner };

    ghost kept = { λ a b. S.kept a.inner b.inner };

    fn read(&mut self, buf: &mut [u8]) -> Result<usize, Failed> {
        if buf.len() <= self.most || self.most == 0 {
            return self.inner.read(buf);
        }
        let most = self.most;
        self.inner.read(&mut buf[..most])
    }

    ghost kept_refl = { λ a. S.kept_refl a.inner };

    ghost kept_trans = { λ a b c. S.kept_trans a.inner b.inner c.inner };

    ghost read_faults_fit = { λ a. S.read_faults_fit a.inner };
}

impl<S: Sink> Sink for Pieces<S> {
    ghost written = { λ s. S.written s.inner };

    ghost write_faults = { λ s. S.write_faults s.inner };

    ghost sink_kept = { λ a b. S.sink_kept a.inner b.inner };

    fn write(&mut self, bytes: &[u8]) -> Result<usize, Failed> {
        if bytes.len() <= self.most || self.most == 0 {
            return self.inner.write(bytes);
        }
        let most = self.most;
        self.inner.write(&bytes[..most])
    }

    ghost sink_kept_refl = { λ a. S.sink_kept_refl a.inner };

    ghost sink_kept_trans = { λ a b c. S.sink_kept_trans a.inner b.inner c.inner };

    ghost write_faults_fit = { λ a. S.write_faults_fit a.inner };
}

impl<S: Stream> Stream for Pieces<S> {
    ghost reads_keep = { λ a b. S.reads_keep a.inner b.inner };

    ghost writes_keep = { λ a b. S.writes_keep a.inner b.inner };
}
