//! A request that is sent, and its reply that is read.
ghost use Rattle.std.specs.Prelude.{◌≤◌, ◌⊎◌, IfOk, IsErrOf, OnOk, length};
ghost use Rattle.std.specs.Io.KnownBytes.{Appends};
ghost use Rattle.ps_ports.specs.Causes.{Rose};
ghost use Rattle.ps_doors.specs.Link.{greatest_reply};
ghost use Rattle.ps_sockets.specs.Exchange.{GaveFront};

use ps_doors::link::{LinkFault, MOST_REPLY};
use ps_ports::all::write_all;
use ps_ports::sink::Sink;
use ps_ports::source::Source;
use ps_ports::stream::Stream;
use std::alloc::Global;

/// Sends a request, whole, and reads the reply to its end, or its first `MOST_REPLY` bytes.
pub fn exchange<T: Stream>(
    alloc: Global,
    stream: &mut T,
    request: &[u8],
) -> Result<Vec<u8>, LinkFault>
    ensures sent { OnOk result (Appends (T.Sink.written stream.old) (T.Sink.written stream.new) request.now) }
    ensures reply { IfOk result (λ reply. GaveFront greatest_reply (T.Source.left stream.old) reply.items) }
    ensures bound { IfOk result (λ reply. length reply.items ≤ greatest_reply) }

    // It doesn't give up by itself.
    ensures failed { IsErrOf result LinkFault.Failed
        → Rose (T.Sink.write_faults stream.old) (T.Sink.write_faults stream.new) ⊎ Rose (T.Source.read_faults stream.old) (T.Source.read_faults stream.new) }
{
    if write_all(stream, request).is_err() {
        return Err(LinkFault::Failed);
    }
    read_front(alloc, stream, MOST_REPLY)
}

// Reads the source to its end, or its first `most` bytes.
fn read_front<S: Source>(alloc: Global, source: &mut S, most: usize) -> Result<Vec<u8>, LinkFault>
    ensures front { IfOk result (λ bytes. GaveFront most (S.left source.old) bytes.items) }
    ensures bound { IfOk result (λ bytes. length bytes.items ≤ most) }
    ensures fault { IsErrOf result LinkFault.Failed → Rose (S.read_faults source.old) (S.read_faults source.new) }
    ensures later { S.read_faults source.old ≤ S.read_faults source.new }
    ensures kept { S.kept source.old source.new }
{
    let mut all = Vec::new(alloc);
    let mut buf = [0; 4096];
    while all.len() < most {
        let room = (most - all.len()).min(4096);
        let Ok(count) = source.read(&mut buf[..room]) else {
            return Err(LinkFault::Failed);
        };
        if count == 0 {
            return Ok(all);
        }
        if all.extend_from_slice(&buf[..count]).is_err() {
            return Err(LinkFault::Memory);
        }
    }
    Ok(all)
}
