//! Reading a source to its end, and writing a whole piece to a sink.
ghost use Rattle.std.specs.Prelude.{◌≤◌, IfOk, OnOk, OnErr, IsErrOf, length};
ghost use Rattle.std.specs.Io.KnownBytes.{Appends};
ghost use Rattle.ps_ports.specs.All.{GaveAll, GaveAtMost, GaveMoreThan, HeldMoreThan, WrotePrefix};
ghost use Rattle.ps_ports.specs.Causes.{Rose};

use crate::fault::{AllFault, WriteFault};
use crate::sink::Sink;
use crate::source::Source;
use std::alloc::Global;

/// Reads the source to its end, but stops once more than `most` bytes came.
pub fn read_all<S: Source>(alloc: Global, source: &mut S, most: u64) -> Result<Vec<u8>, AllFault>
    // All that the source held, and its end was reached.
    ensures all { IfOk result (λ bytes. GaveAll (S.left source.old) (S.left source.new) bytes.items) }
    ensures within { IfOk result (λ bytes. length bytes.items ≤ most) }

    // Exactly where more than `most` bytes came.
    ensures too_long { IsErrOf result AllFault.TooLong → GaveMoreThan most (S.left source.old) (S.left source.new) }
    ensures held_more { IsErrOf result AllFault.TooLong → HeldMoreThan most (S.left source.old) }
    ensures not_too_long { IsErrOf result AllFault.ReadFault → GaveAtMost most (S.left source.old) (S.left source.new) }

    // It doesn't give up by itself.
    ensures fault { IsErrOf result AllFault.ReadFault → Rose (S.read_faults source.old) (S.read_faults source.new) }

    ensures later { S.read_faults source.old ≤ S.read_faults source.new }
    ensures kept { S.kept source.old source.new }
{
    let mut all = Vec::new(alloc);
    let mut buf = [0; 4096];
    loop {
        let Ok(count) = source.read(&mut buf) else {
            return Err(AllFault::ReadFault);
        };
        if most - (all.len() as u64) < count as u64 {
            return Err(AllFault::TooLong);
        }
        if all.extend_from_slice(&buf[..count]).is_err() {
            return Err(AllFault::Memory);
        }
        if count == 0 {
            return Ok(all);
        }
    }
}

/// Writes all the bytes, piece by piece as the sink takes them. It takes no memory.
pub fn write_all<K: Sink>(sink: &mut K, bytes: &[u8]) -> Result<(), WriteFault>
    ensures all { OnOk result (Appends (K.written sink.old) (K.written sink.new) bytes.now) }

    // A part of the front, without the whole, went out.
    ensures prefix { OnErr result (WrotePrefix (K.written sink.old) (K.written sink.new) bytes.now) }

    // It doesn't give up by itself.
    ensures fault { OnErr result (Rose (K.write_faults sink.old) (K.write_faults sink.new)) }

    ensures later { K.write_faults sink.old ≤ K.write_faults sink.new }
    ensures kept { K.sink_kept sink.old sink.new }
{
    let mut rest = bytes;
    while !rest.is_empty() {
        match sink.write(rest) {
            Ok(0) => return Err(WriteFault),
            Ok(count) => rest = &rest[count..],
            Err(_) => return Err(WriteFault),
        }
    }
    Ok(())
}
