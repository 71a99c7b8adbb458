//! A connection: its messages, one after another.
ghost use Rattle.std.specs.Prelude.{◌≡◌, ◌≤◌, [], false};
ghost use Rattle.ps_ports.specs.All.{GaveAtMost};
ghost use Rattle.ps_ports.specs.Causes.{Rose};
ghost use Rattle.http_connection.specs.Exchange.{Served};
ghost use Rattle.http_connection.specs.Metered.{Used, seen};

use crate::end::ConnEnd;
use crate::metered::Metered;
use crate::service::Service;
use crate::turn::serve_turn;
use ps_http::reader::{FieldSpans, Reader};
use ps_ports::stream::Stream;
use std::alloc::Global;
use std::sync::Wait;

/// Answers one message after another, until the connection ends.
fn serve_reader<R: Wait, V: Service<T>, T, M: Stream>(
    rt: &R,
    alloc: Global,
    fields: &mut FieldSpans,
    service: &V,
    token: &mut T,
    reader: &mut Reader<Metered<'_, M>>,
    address: &str,
) -> ConnEnd
    requires fits { V.fits service.now token.old }
    requires fresh { (reader.old.held ≡ []) × (reader.old.refused ≡ false) }
    requires new { (reader.old.source.room ≡ 67108864) × (reader.old.source.refusals ≡ 0) }
    ensures fits { V.fits service.now token.new }
    ensures served { Served (V.answers service.now) address.now token.old token.new
        (M.left reader.old.source.stream.now) (M.left reader.new.source.stream.now)
        (M.written reader.old.source.stream.now) (M.written reader.new.source.stream.now) result }
    ensures read_fault { result ≡ ConnEnd.ReadFault → Rose (M.read_faults reader.old.source.stream.now) (M.read_faults reader.new.source.stream.now) }
    ensures write_fault { result ≡ ConnEnd.WriteFault → Rose (M.write_faults reader.old.source.stream.now) (M.write_faults reader.new.source.stream.now) }
    ensures name { reader.new.source.stream.ghost_name ≡ reader.old.source.stream.ghost_name }
    ensures used { Used (seen M.left M.written M.read_faults M.write_faults reader.old.source) (seen M.left M.written M.read_faults M.write_faults reader.new.source) }
{
    for _ in rt.forever() {
        match serve_turn(alloc, fields, service, token, reader, address) {
            Some(end) => return end,
            None => {}
        }
    }
    unreachable!()
}

/// Serves one connection: answers its requests one after another, until it ends. It takes at most
/// 67,108,864 bytes. It waits as long as the stream's calls do.
pub fn serve_connection<R: Wait, V: Service<T>, T, M: Stream>(
    rt: &R,
    alloc: Global,
    fields: &mut FieldSpans,
    service: &V,
    token: &mut T,
    stream: &mut M,
    address: &str,
) -> ConnEnd
    requires { V.fits service.now token.old }
    ensures fits { V.fits service.now token.new }

    // What was read, answered and written, and why it ended.
    ensures served { Served (V.answers service.now) address.now token.old token.new
        (M.left stream.old) (M.left stream.new) (M.written stream.old) (M.written stream.new) result }

    // It doesn't give up by itself, and takes no more than it may.
    ensures read_fault { result ≡ ConnEnd.ReadFault → Rose (M.read_faults stream.old) (M.read_faults stream.new) }
    ensures write_fault { result ≡ ConnEnd.WriteFault → Rose (M.write_faults stream.old) (M.write_faults stream.new) }
    ensures within { GaveAtMost 67108864 (M.left stream.old) (M.left stream.new) }

    ensures reads_later { M.read_faults stream.old ≤ M.read_faults stream.new }
    ensures writes_later { M.write_faults stream.old ≤ M.write_faults stream.new }
{
    match Reader::over(alloc, Metered::new(stream)) {
        Ok(mut reader) => {
            let end = serve_reader(rt, alloc, fields, service, token, &mut reader, address);
            let metered = reader.into_source();
            let _stream = metered.into_stream();
            end
        }
        Err(metered) => {
            let _stream = metered.into_stream();
            ConnEnd::Memory
        }
    }
}
