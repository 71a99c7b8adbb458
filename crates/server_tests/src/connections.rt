//! Tests of what no clause says: that calls succeed with ample memory, and what goes out.
ghost use Rattle.std.specs.Prelude.{◌≤◌};

use crate::pieces::Pieces;
use crate::supply::Supply;
use http_connection::answer::Answer;
use http_connection::connection::serve_connection;
use http_connection::end::ConnEnd;
use http_connection::service::Service;
use ps_http::message::{Request, Response};
use ps_http::reader::FieldSpans;
use ps_ports::memory_stream::MemoryStream;
use ps_ports::stream::Stream;
use ps_time::items::Items;
use std::alloc::{AllocError, Global};
use std::process::Abort;
use std::sync::{Mutex, Wait};
use std::test::Fail;

/// Counts requests, and answers with their paths.
#[derive(Drop)]
struct Counter {
    alloc: Global,
}

fn path_shown(alloc: Global, request: &Request) -> Answer {
    match request.path.as_str().as_bytes().to_vec(alloc) {
        Ok(body) => Answer::Response(Response {
            status: 200,
            allow: None,
            close: false,
            body: Items::from_vec(body),
        }),
        Err(_) => Answer::Memory,
    }
}

impl Service<u64> for Counter {
    ghost fits = { λ _ _. Unit {0} };

    ghost answers = { λ _ old _ _ _ new. old ≤ new };

    fn answer(&self, token: &mut u64, request: &Request, _address: &str) -> Answer {
        *token = token.saturating_add(1);
        if request.path.is("/failed") {
            return Answer::Failed;
        }
        if request.path.is("/memory") {
            return Answer::Memory;
        }
        path_shown(self.alloc, request)
    }
}

/// The same behind a lock.
#[derive(Drop)]
struct Guarded<'a, R> {
    rt: &'a R,
    count: &'a Mutex<u64>,
    alloc: Global,
}

impl<'a, R: Wait> Service<u64> for Guarded<'a, R> {
    ghost fits = { λ _ _. Unit {0} };

    ghost answers = { λ _ _ _ _ _ _. Unit {0} };

    fn answer(&self, token: &mut u64, request: &Request, _address: &str) -> Answer {
        let mut count = self.count.lock(self.rt);
        *count = count.saturating_add(1);
        *token = *count;
        path_shown(self.alloc, request)
    }
}

/// A stream of these bytes, in pieces of at most so many, of which these calls fail.
fn stream_of(
    alloc: Global,
    bytes: &[u8],
    most: usize,
    failing: &[u64],
) -> Result<Pieces<MemoryStream>, Fail> {
    let bytes = bytes.to_vec(alloc)?;
    let failing = failing.to_vec(alloc)?;
    Ok(Pieces {
        inner: MemoryStream::new(alloc, bytes, failing),
        most,
    })
}

/// Serves the stream, and answers how that ended and how many requests the service got.
fn serve<R: Wait, V: Service<u64>, M: Stream>(
    rt: &R,
    alloc: Global,
    service: &V,
    stream: &mut M,
) -> Result<(ConnEnd, u64), Fail>
    requires { (n : _) → V.fits service.now n }
{
    let Ok(mut fields) = FieldSpans::new(alloc) else {
        return Err(AllocError.into());
    };
    let mut token = 0;
    let end = serve_connection(
        rt,
        alloc,
        &mut fields,
        service,
        &mut token,
        stream,
        "10.0.0.1",
    );
    Ok((end, token))
}

/// What a connection is to come to: its end, and what goes out.
#[derive(Clone, Copy)]
struct Wanted {
    end: ConnEnd,
    written: &'static [u8],
}

/// Whether these bytes come to that, in pieces of at most so many, where these calls fail.
fn comes_to<R: Wait>(
    rt: &R,
    alloc: Global,
    bytes: &[u8],
    most: usize,
    failing: &[u64],
    wanted: &Wanted,
) -> Result<bool, Fail> {
    let service = Counter { alloc };
    let mut stream = stream_of(alloc, bytes, most, failing)?;
    let (end, _) = serve(rt, alloc, &service, &mut stream)?;
    Ok(end == wanted.end && stream.inner.written() == wanted.written)
}

/// The same where no call fails, in one piece and in single bytes.
fn is_answered<R: Wait>(
    rt: &R,
    alloc: Global,
    bytes: &[u8],
    end: ConnEnd,
    written: &'static [u8],
) -> Result<bool, Fail> {
    let wanted = Wanted { end, written };
    let whole = comes_to(rt, alloc, bytes, 0, &[], &wanted)?;
    let single = comes_to(rt, alloc, bytes, 1, &[], &wanted)?;
    Ok(whole && single)
}

/// Three requests, the last of which asks to close, and the begin of a fourth.
static THREE: &[u8] =
    b"GET /a HTTP/1.1\r\nHost: b\r\n\r\nGET /failed HTTP/1.1\r\nHost: b\r\n\r\nPUT /b HTTP/1.1\r\nHost: b\r\nContent-Length: 2\r\nConnection: close\r\n\r\n{}GET ";

static THREE_ANSWERED: &[u8] =
    b"HTTP/1.1 200 OK\r\nContent-Type: application/json\r\nContent-Length: 2\r\n\r\n/aHTTP/1.1 503 Service Unavailable\r\nContent-Type: application/json\r\nContent-Length: 16\r\n\r\n{\"error\":\"disk\"}HTTP/1.1 200 OK\r\nContent-Type: application/json\r\nContent-Length: 2\r\nConnection: close\r\n\r\n/b";

/// The reply to the first of them.
static FIRST_ANSWERED: &[u8] =
    b"HTTP/1.1 200 OK\r\nContent-Type: application/json\r\nContent-Length: 2\r\n\r\n/a";

static BAD: &[u8] = b"nonsense\r\n\r\n";

static BAD_ANSWERED: &[u8] =
    b"HTTP/1.1 400 Bad Request\r\nContent-Type: application/json\r\nContent-Length: 20\r\nConnection: close\r\n\r\n{\"error\":\"bad head\"}";

static NO_LENGTH: &[u8] = b"PUT /b HTTP/1.1\r\nHost: b\r\n\r\n";

static NO_LENGTH_ANSWERED: &[u8] =
    b"HTTP/1.1 411 Length Required\r\nContent-Type: application/json\r\nContent-Length: 27\r\nConnection: close\r\n\r\n{\"error\":\"length required\"}";

static LARGE: &[u8] = b"PUT /b HTTP/1.1\r\nHost: b\r\nContent-Length: 1048577\r\n\r\n";

static LARGE_ANSWERED: &[u8] =
    b"HTTP/1.1 413 Payload Too Large\r\nContent-Type: application/json\r\nContent-Length: 21\r\nConnection: close\r\n\r\n{\"error\":\"too large\"}";

static MEMORY: &[u8] = b"GET /memory HTTP/1.1\r\nHost: b\r\n\r\nGET /a HTTP/1.1\r\nHost: b\r\n\r\n";

static MEMORY_ANSWERED: &[u8] =
    b"HTTP/1.1 500 Internal Server Error\r\nContent-Type: application/json\r\nContent-Length: 18\r\nConnection: close\r\n\r\n{\"error\":\"memory\"}";

#[test]
fn closed(rt: HostRuntime) -> Result<(), Fail> {
    let alloc = rt.alloc();
    assert!(rt; is_answered(&rt, alloc, THREE, ConnEnd::Closed, THREE_ANSWERED)?);
    assert!(rt; is_answered(&rt, alloc, &THREE[..28], ConnEnd::Closed, FIRST_ANSWERED)?);
    assert!(rt; is_answered(&rt, alloc, b"", ConnEnd::Closed, b"")?);
    Ok(())
}

#[test]
fn refused(rt: HostRuntime) -> Result<(), Fail> {
    let alloc = rt.alloc();
    assert!(rt; is_answered(&rt, alloc, BAD, ConnEnd::Refused(400), BAD_ANSWERED)?);
    assert!(rt;
        is_answered(
            &rt,
            alloc,
            NO_LENGTH,
            ConnEnd::Refused(411),
            NO_LENGTH_ANSWERED
        )?
    );
    assert!(rt; is_answered(&rt, alloc, LARGE, ConnEnd::Refused(413), LARGE_ANSWERED)?);
    Ok(())
}

#[test]
fn cut_short(rt: HostRuntime) -> Result<(), Fail> {
    let alloc = rt.alloc();
    assert!(rt; is_answered(&rt, alloc, b"GET /psch", ConnEnd::EndInside(9), b"")?);
    assert!(rt;
        is_answered(
            &rt,
            alloc,
            &THREE[..33],
            ConnEnd::EndInside(5),
            FIRST_ANSWERED
        )?
    );
    assert!(rt; is_answered(&rt, alloc, MEMORY, ConnEnd::Memory, MEMORY_ANSWERED)?);
    Ok(())
}

/// The first request has 28 bytes and its reply 72, so that of single bytes the calls 1 to 28 read
/// and 29 to 100 write.
#[test]
fn faults(rt: HostRuntime) -> Result<(), Fail> {
    let alloc = rt.alloc();
    let read = Wanted {
        end: ConnEnd::ReadFault,
        written: b"",
    };
    let later = Wanted {
        end: ConnEnd::ReadFault,
        written: FIRST_ANSWERED,
    };
    let half = Wanted {
        end: ConnEnd::WriteFault,
        written: b"HTTP/1.1 2",
    };
    let whole = Wanted {
        end: ConnEnd::WriteFault,
        written: FIRST_ANSWERED,
    };
    assert!(rt; comes_to(&rt, alloc, THREE, 1, &[9], &read)?);
    assert!(rt; comes_to(&rt, alloc, THREE, 1, &[100 + 9], &later)?);
    assert!(rt; comes_to(&rt, alloc, THREE, 1, &[28 + 11], &half)?);
    assert!(rt; comes_to(&rt, alloc, THREE, 0, &[3], &whole)?);
    Ok(())
}

/// A read is due after 64 requests of 1,048,576 bytes, also where the input ends with them.
#[test]
fn spent(rt: HostRuntime) -> Result<(), Fail> {
    let alloc = rt.alloc();
    let service = Counter { alloc };
    for requests in [64, 65] {
        let mut stream = Supply { requests, place: 0 };
        let (end, answered) = serve(&rt, alloc, &service, &mut stream)?;
        assert!(rt; end == ConnEnd::Spent(67_108_864));
        assert!(rt; answered == 64);
    }
    let mut stream = Supply {
        requests: 63,
        place: 0,
    };
    let (end, answered) = serve(&rt, alloc, &service, &mut stream)?;
    assert!(rt; end == ConnEnd::Closed && answered == 63);
    Ok(())
}

#[test]
fn a_service_that_waits(rt: HostRuntime) -> Result<(), Fail> {
    let alloc = rt.alloc();
    let count = Mutex::new(0);
    let service = Guarded {
        rt: &rt,
        count: &count,
        alloc,
    };
    let mut stream = stream_of(alloc, &THREE[..28], 0, &[])?;
    let (end, requests) = serve(&rt, alloc, &service, &mut stream)?;
    assert!(rt; end == ConnEnd::Closed && requests == 1);
    Ok(())
}
