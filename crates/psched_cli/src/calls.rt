//! Calls of psched over a source and a sink in memory.
use archivers::plain::PlainArchivers;
use ps_ports::memory_sink::MemorySink;
use ps_ports::memory_source::MemorySource;
use psched_top::psched::psched;
use std::alloc::{AllocError, Global};

/// What a call answered and did.
#[derive(Clone, Copy)]
pub struct Ran {
    status: u8,
    as_expected: bool,
    read_faults: u64,
    write_faults: u64,
}

impl Ran {
    /// It answered this status and wrote the text that was expected. No fault was met but what the
    /// status tells.
    pub fn tells(&self, status: u8) -> bool {
        self.status == status
            && self.as_expected
            && self.read_faults == u64::from(status == 3)
            && self.write_faults == u64::from(status == 4)
    }
}

fn words_of(alloc: Global, words: &str) -> Result<Vec<String>, AllocError> {
    let mut list = Vec::new(alloc);
    for word in words.split(' ') {
        if !word.is_empty() {
            list.push(String::from_str(alloc, word)?)?;
        }
    }
    Ok(list)
}

fn call(
    alloc: Global,
    words: &[String],
    source: &mut MemorySource,
    sink: &mut MemorySink,
    text: &str,
) -> Ran {
    let mut archivers = PlainArchivers::new();
    let status = psched(alloc, words, source, sink, &mut archivers);
    Ran {
        status,
        as_expected: sink.written() == text.as_bytes(),
        read_faults: source.faults(),
        write_faults: sink.faults(),
    }
}

fn call_over(
    alloc: Global,
    words: &[String],
    mut source: MemorySource,
    failing_writes: Vec<u64>,
    text: &str,
) -> Ran {
    let mut sink = MemorySink::new(Vec::new(alloc), failing_writes);
    call(alloc, words, &mut source, &mut sink, text)
}

/// Calls psched with words that are cut at each space, where these reads and writes fail.
pub fn run(
    alloc: Global,
    words: &str,
    input: Vec<u8>,
    failing_reads: &[u64],
    failing_writes: &[u64],
    text: &str,
) -> Result<Ran, AllocError> {
    let source = MemorySource::new(input, failing_reads.to_vec(alloc)?);
    let writes = failing_writes.to_vec(alloc)?;
    let list = words_of(alloc, words)?;
    Ok(call_over(alloc, list.as_slice(), source, writes, text))
}
