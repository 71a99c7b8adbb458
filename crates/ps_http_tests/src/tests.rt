//! Tests of what no clause says: that calls succeed with ample memory, and that the definitions mean
//! what the standards do.
ghost use Rattle.std.specs.Prelude.{◌≤◌, IsTrue, false};
ghost use Rattle.std.specs.Io.KnownBytes.{Appends};
ghost use Rattle.ps_http.specs.Written.{response_text, fault_response};

use ps_http::fault::HttpFault;
use ps_http::message::{HttpLimits, MAX_HEAD, PeerMark, Request, Response};
use ps_http::reader::{FieldSpans, Reader};
use ps_http::reply::{ReplyFault, read_reply};
use ps_http::written::{fixed_reply, request_bytes, response_bytes};
use ps_ports::all::write_all;
use ps_ports::fault::Failed;
use ps_ports::memory_source::MemorySource;
use ps_ports::memory_stream::MemoryStream;
use ps_ports::source::Source;
use ps_ports::stream::Stream;
use ps_time::memory::Memory;
use ps_time::text::Text;
use std::alloc::{AllocError, Global};
use std::process::Abort;
use std::test::Fail;

/// Gives at most so many bytes at a time.
#[derive(Drop)]
struct Pieces<S> {
    inner: S,
    most: usize,
}

impl<S: Source> Source for Pieces<S> {
    ghost left = { λ s. S.left s.inner };

    ghost read_faults = { λ s. S.read_faults s.inner };

    ghost kept = { λ a b. S.kept a.inner b.inner };

    fn read(&mut self, buf: &mut [u8]) -> Result<usize, Failed> {
        if buf.len() <= self.most || self.most == 0 {
            return self.inner.read(buf);
        }
        let most = self.most;
        self.inner.read(&mut buf[..most])
    }

    ghost kept_refl = { λ a. S.kept_refl a.inner };

    ghost kept_trans = { λ a b c. S.kept_trans a.inner b.inner c.inner };

    ghost read_faults_fit = { λ a. S.read_faults_fit a.inner };
}

fn reader(alloc: Global, bytes: &[u8], most: usize) -> Result<Reader<Pieces<MemorySource>>, Fail> {
    failing_reader(alloc, bytes, most, &[])
}

/// A reader of bytes in such pieces, of which these calls fail.
fn failing_reader(
    alloc: Global,
    bytes: &[u8],
    most: usize,
    failing: &[u64],
) -> Result<Reader<Pieces<MemorySource>>, Fail> {
    let failing = failing.to_vec(alloc)?;
    let bytes = bytes.to_vec(alloc)?;
    let inner = MemorySource::new(bytes, failing);
    match Reader::new(alloc, Pieces { inner, most }) {
        Ok(reader) => Ok(reader),
        Err(_) => Err(AllocError.into()),
    }
}

fn word(fault: HttpFault, count: usize) -> &'static str {
    match fault {
        HttpFault::BadHead => "bad",
        HttpFault::NoLength => "length",
        HttpFault::TooLarge => "large",
        HttpFault::EndInside(n) => if n == count as u64 { "inside" } else { "wrong" },
        HttpFault::ReadFault => "fault",
        HttpFault::AfterRefusal => "after",
        HttpFault::Memory => "memory",
    }
}

const LIMITS: HttpLimits = HttpLimits {
    head: MAX_HEAD,
    body: 1_048_576,
};

/// Reads a request, with spans of its own.
fn read_request<S: Source>(
    alloc: Global,
    reader: &mut Reader<S>,
) -> Result<Option<Request>, HttpFault> {
    match FieldSpans::new(alloc) {
        Ok(mut fields) => reader.read_request(alloc, &mut fields, LIMITS),
        Err(_) => Err(HttpFault::Memory),
    }
}

/// The same for a response.
fn read_response<S: Source>(alloc: Global, reader: &mut Reader<S>) -> Result<Response, HttpFault> {
    match FieldSpans::new(alloc) {
        Ok(mut fields) => reader.read_response(alloc, &mut fields, LIMITS),
        Err(_) => Err(HttpFault::Memory),
    }
}

fn kept_word(request: &Request) -> &'static str {
    if request.close { "close" } else { "ok" }
}

/// What the next request comes to, where so many bytes are left.
fn next_outcome(
    alloc: Global,
    reader: &mut Reader<Pieces<MemorySource>>,
    count: usize,
) -> &'static str {
    match read_request(alloc, reader) {
        Ok(Some(request)) => kept_word(&request),
        Ok(None) => "none",
        Err(fault) => word(fault, count),
    }
}

fn request_outcome(alloc: Global, bytes: &[u8], most: usize) -> Result<&'static str, Fail> {
    let mut reader = reader(alloc, bytes, most)?;
    Ok(next_outcome(alloc, &mut reader, bytes.len()))
}

fn response_outcome(alloc: Global, bytes: &[u8], most: usize) -> Result<&'static str, Fail> {
    let mut reader = reader(alloc, bytes, most)?;
    match read_response(alloc, &mut reader) {
        Ok(_) => Ok("ok"),
        Err(fault) => Ok(word(fault, bytes.len())),
    }
}

/// What the first message of the bytes comes to, read in such pieces.
fn outcome(alloc: Global, bytes: &[u8], most: usize, request: bool) -> Result<&'static str, Fail> {
    if request {
        return request_outcome(alloc, bytes, most);
    }
    response_outcome(alloc, bytes, most)
}

/// The bytes of a case, in which `~` stands for CR LF, and `|` for LF alone.
fn expanded(alloc: Global, case: &str) -> Result<Vec<u8>, AllocError> {
    let mut bytes = Vec::new(alloc);
    for byte in case.as_bytes() {
        match *byte {
            b'~' => bytes.extend_from_slice(b"\r\n")?,
            b'|' => bytes.push(b'\n')?,
            other => bytes.push(other)?,
        }
    }
    Ok(bytes)
}

// What is expected, and the bytes.
static REQUESTS: [(&str, &str); 74] = [
    ("none", ""),
    ("ok", "GET / HTTP/1.1~Host: a~~"),
    ("ok", "GET /psch HTTP/1.1~Host: a~~"),
    ("inside", "GET /psch"),
    ("inside", "G"),
    ("inside", "GET "),
    ("inside", "GET /"),
    ("inside", "GET /psch HTTP/1.1"),
    ("inside", "GET /psch HTTP/1.1~"),
    ("inside", "GET /psch HTTP/1.1~Host"),
    ("inside", "GET /psch HTTP/1.1~Host: a"),
    ("inside", "GET /psch HTTP/1.1~Host: a~"),
    ("inside", "~"),
    ("inside", "||"),
    ("ok", "GET / HTTP/1.1|Host: a||"),
    ("ok", "~~GET / HTTP/1.1~Host: a~~"),
    ("close", "GET / HTTP/1.0~~"),
    ("close", "GET / HTTP/1.0~Host: a~Host: b~~"),
    ("close", "GET / HTTP/1.0~Connection: keep-alive~~"),
    (
        "close",
        "GET / HTTP/1.1~Host: a~Connection: keep-alive~CONNECTION: ClOsE~~",
    ),
    ("ok", "GET / HTTP/1.1~Host: a~Connection: close, x~~"),
    ("bad", "GET / HTTP/1.1~~"),
    ("bad", "GET / HTTP/1.1~Host: a~host: b~~"),
    ("bad", "GET / HTTP/1.2~Host: a~~"),
    ("bad", "GET / HTTP/2.0~Host: a~~"),
    ("bad", "GET /  HTTP/1.1~Host: a~~"),
    ("bad", "GET a HTTP/1.1~Host: a~~"),
    ("bad", "GET http://a/ HTTP/1.1~Host: a~~"),
    ("bad", "OPTIONS * HTTP/1.1~Host: a~~"),
    ("bad", "G(T / HTTP/1.1~Host: a~~"),
    ("bad", " GET / HTTP/1.1~Host: a~~"),
    ("bad", "GET / HTTP/1.1~Host : a~~"),
    ("bad", "GET / HTTP/1.1~Host: a~: b~~"),
    ("bad", "GET / HTTP/1.1~Host: a~b~~"),
    ("bad", "GET / HTTP/1.1~Host: a~ folded~~"),
    ("bad", "GET / HTTP/1.1~Host: a~Content-Length: ~~"),
    ("bad", "GET / HTTP/1.1~Host: a~Content-Length: x~~"),
    ("bad", "GET / HTTP/1.1~Host: a~Content-Length: +1~~"),
    ("bad", "GET / HTTP/1.1~Host: a~Content-Length: -1~~"),
    ("bad", "GET / HTTP/1.1~Host: a~Content-Length: 1 1~~"),
    ("bad", "GET / HTTP/1.1~Host: a~Content-Length: 0000000001~~"),
    (
        "bad",
        "GET / HTTP/1.1~Host: a~Content-Length: 0~Content-Length: 0~~",
    ),
    ("bad", "GET / HTTP/1.1~Host: a~Content-Length: 0,0~~"),
    ("ok", "GET / HTTP/1.1~Host: a~Content-Length: 000000001~~b"),
    ("ok", "GET / HTTP/1.1~Host: a~content-length:\t2 ~~bc"),
    ("inside", "GET / HTTP/1.1~Host: a~Content-Length: 2~~b"),
    ("inside", "GET / HTTP/1.1~Host: a~Content-Length: 2~~"),
    ("ok", "POST / HTTP/1.1~Host: a~Content-Length: 0~~"),
    ("length", "POST / HTTP/1.1~Host: a~~"),
    ("length", "PUT / HTTP/1.1~Host: a~~"),
    ("ok", "DELETE / HTTP/1.1~Host: a~~"),
    ("ok", "post / HTTP/1.1~Host: a~~"),
    (
        "length",
        "POST / HTTP/1.1~Host: a~Transfer-Encoding: chunked~~",
    ),
    (
        "length",
        "GET / HTTP/1.1~Host: a~transfer-encoding: identity~~",
    ),
    (
        "length",
        "POST / HTTP/1.1~Host: a~Transfer-Encoding: chunked~Content-Length: 1~~b",
    ),
    ("large", "POST / HTTP/1.1~Host: a~Content-Length: 1048577~~"),
    (
        "large",
        "POST / HTTP/1.1~Host: a~Content-Length: 999999999~~",
    ),
    (
        "large",
        "POST / HTTP/1.1~Host: a~Transfer-Encoding: chunked~Content-Length: 1048577~~",
    ),
    ("ok", "GET / HTTP/1.1~Host: a~ps-peer: 1 k~~"),
    ("ok", "GET / HTTP/1.1~Host: a~ps-peer: 65535 0aZ~~"),
    ("ok", "GET / HTTP/1.1~Host: a~ps-peer: 00001 k~~"),
    ("bad", "GET / HTTP/1.1~Host: a~ps-peer: 65536 k~~"),
    ("bad", "GET / HTTP/1.1~Host: a~ps-peer: 000001 k~~"),
    ("bad", "GET / HTTP/1.1~Host: a~ps-peer: 1  k~~"),
    ("bad", "GET / HTTP/1.1~Host: a~ps-peer: 1 ~~"),
    ("bad", "GET / HTTP/1.1~Host: a~ps-peer: 1~~"),
    ("bad", "GET / HTTP/1.1~Host: a~ps-peer:  k~~"),
    ("bad", "GET / HTTP/1.1~Host: a~ps-peer: 1 k k~~"),
    ("bad", "GET / HTTP/1.1~Host: a~ps-peer: 1 k-k~~"),
    ("bad", "GET / HTTP/1.1~Host: a~PS-Peer: 1 k~ps-peer: x~~"),
    ("ok", "GET / HTTP/1.1~Host: a~ps-peer: 1 k~ps-peer: 2 k~~"),
    (
        "bad",
        "GET / HTTP/1.1~Host: a~Content-Length: 1048577~ps-peer: x~~",
    ),
    ("bad", "GET~~"),
    ("bad", "HTTP/1.1 200 OK~Content-Length: 0~~"),
];

/// Whether a case comes to what is expected, in one piece, in single bytes and in sevens.
fn is_outcome(alloc: Global, wanted: &str, case: &str, request: bool) -> Result<bool, Fail> {
    let bytes = expanded(alloc, case)?;
    let mut right = true;
    for most in [0, 1, 7] {
        let comes = outcome(alloc, bytes.as_slice(), most, request)?;
        right = right && comes == wanted;
    }
    Ok(right)
}

fn check_cases(alloc: Global, cases: &[(&str, &str)], request: bool) -> Result<(), Fail> {
    for (wanted, case) in cases {
        if !is_outcome(alloc, wanted, case, request)? {
            return Err(Fail::new(format_args!("{case:?} isn't {wanted}")));
        }
    }
    Ok(())
}

#[test]
fn requests_and_their_refusals(rt: HostRuntime) -> Result<(), Fail> {
    check_cases(rt.alloc(), &REQUESTS, true)
}

static RESPONSES: [(&str, &str); 13] = [
    ("inside", ""),
    ("ok", "HTTP/1.1 200 OK~Content-Length: 0~~"),
    ("ok", "HTTP/1.1 200~Content-Length: 1~~b"),
    ("ok", "HTTP/1.0 404 Not Found~Content-Length: 0~~"),
    ("length", "HTTP/1.1 204 No Content~~"),
    (
        "length",
        "HTTP/1.1 200 OK~Transfer-Encoding: chunked~Content-Length: 0~~",
    ),
    ("bad", "HTTP/1.1 20 OK~Content-Length: 0~~"),
    (
        "bad",
        "HTTP/1.1 200 OK~Content-Length: 0~Content-Length: 0~~",
    ),
    ("bad", "HTTP/1.1 200 OK~Content-Length: 0~ps-peer: x~~"),
    ("bad", "GET / HTTP/1.1~Host: a~~"),
    ("large", "HTTP/1.1 200 OK~Content-Length: 1048577~~"),
    ("inside", "HTTP/1.1 200 OK~Content-Length: 1~~"),
    ("inside", "HTTP/1.1 200"),
];

#[test]
fn responses_and_their_refusals(rt: HostRuntime) -> Result<(), Fail> {
    check_cases(rt.alloc(), &RESPONSES, false)
}

// A request of curl, and what follows it.
static CURL: &[u8] =
    b"POST /pscheduler/tasks HTTP/1.1\r\nHost: localhost:8080\r\nUser-Agent: curl/8.5.0\r\nAccept: */*\r\nContent-Type: application/json\r\nContent-Length: 4\r\n\r\nbodyGET /a?b?c HTTP/1.0\r\nps-peer: 00007 Key1\r\nPS-PEER: 8 other\r\n\r\n";

fn is_mark(peer: &Option<PeerMark>, number: u16, key: &str) -> bool {
    match peer {
        Some(mark) => mark.number == number && mark.key.is(key),
        None => false,
    }
}

fn is_query(query: &Option<Text>, text: &str) -> bool {
    match query {
        Some(query) => query.is(text),
        None => false,
    }
}

fn is_first(request: &Request) -> bool {
    request.path.is("/pscheduler/tasks")
        && request.query.is_none()
        && request.body.as_slice() == b"body".as_slice()
}

fn is_second(request: &Request) -> bool {
    request.path.is("/a") && is_query(&request.query, "b?c") && is_mark(&request.peer, 7, "Key1")
}

fn reads(alloc: Global, reader: &mut Reader<Pieces<MemorySource>>, first: bool) -> bool {
    match read_request(alloc, reader) {
        Ok(Some(request)) => if first {
            is_first(&request)
        } else {
            is_second(&request)
        },
        _ => false,
    }
}

fn reads_both(alloc: Global, bytes: &[u8], most: usize) -> Result<bool, Fail> {
    let mut reader = reader(alloc, bytes, most)?;
    let both = reads(alloc, &mut reader, true) && reads(alloc, &mut reader, false);
    Ok(both && matches!(read_request(alloc, &mut reader), Ok(None)))
}

#[test]
fn two_requests_in_one_piece_and_in_many(rt: HostRuntime) -> Result<(), Fail> {
    for most in [0, 1, 7] {
        assert!(rt; reads_both(rt.alloc(), CURL, most)?);
    }
    Ok(())
}

fn long_head(alloc: Global, fields: usize, padding: usize) -> Result<Vec<u8>, Fail> {
    let mut head = b"GET / HTTP/1.1\r\nHost: ".to_vec(alloc)?;
    for _ in 0..padding {
        head.push(b'a')?;
    }
    head.extend_from_slice(b"\r\n")?;
    for _ in 1..fields {
        head.extend_from_slice(b"a: b\r\n")?;
    }
    head.extend_from_slice(b"\r\n")?;
    Ok(head)
}

fn head_outcome(
    alloc: Global,
    fields: usize,
    padding: usize,
    count: usize,
) -> Result<&'static str, Fail> {
    let head = long_head(alloc, fields, padding)?;
    let count = head.len().min(count);
    request_outcome(alloc, &head.as_slice()[..count], 0)
}

// The fields, the padding, how many bytes come, and what is expected: a head of 16,384 bytes and one of
// 16,385, 64 fields and 65, and heads without an end.
static HEADS: [(usize, usize, usize, &str); 6] = [
    (1, 16_358, 20_000, "ok"),
    (1, 16_359, 20_000, "large"),
    (64, 1, 20_000, "ok"),
    (65, 1, 20_000, "large"),
    (1, 20_000, 16_384, "large"),
    (1, 20_000, 16_383, "inside"),
];

fn check_heads(alloc: Global, cases: &[(usize, usize, usize, &str)]) -> Result<(), Fail> {
    for (fields, padding, count, wanted) in cases {
        if head_outcome(alloc, *fields, *padding, *count)? != *wanted {
            return Err(Fail::new(format_args!("{fields} fields, {padding}, {count}")));
        }
    }
    Ok(())
}

#[test]
fn the_limits_of_a_head(rt: HostRuntime) -> Result<(), Fail> {
    check_heads(rt.alloc(), &HEADS)
}

fn with_body(alloc: Global, count: usize) -> Result<Vec<u8>, Fail> {
    let mut bytes = b"POST / HTTP/1.1\r\nHost: a\r\nContent-Length: 1048576\r\n\r\n".to_vec(alloc)?;
    for _ in 0..count {
        bytes.push(b'b')?;
    }
    Ok(bytes)
}

// One byte more than the body begins the next message.
#[test]
fn the_limit_of_a_body(rt: HostRuntime) -> Result<(), Fail> {
    let alloc = rt.alloc();
    let bytes = with_body(alloc, 1_048_577)?;
    let mut reader = reader(alloc, bytes.as_slice(), 0)?;
    assert_eq!(rt; next_outcome(alloc, &mut reader, 1), "ok");
    assert_eq!(rt; next_outcome(alloc, &mut reader, 1), "inside");
    assert_eq!(rt; next_outcome(alloc, &mut reader, 1), "after");
    Ok(())
}

/// Whether reading meets that fault once, and then reads nothing.
fn fails_once(alloc: Global, bytes: &[u8], call: u64) -> Result<bool, Fail> {
    let mut reader = failing_reader(alloc, bytes, 100, &[call])?;
    let mut faults = 0u32;
    for _ in 0..4 {
        if next_outcome(alloc, &mut reader, 0) == "fault" {
            faults = faults.saturating_add(1);
        }
    }
    let source = reader.into_source().inner;
    Ok(faults == 1 && source.faults() == 1 && source.calls() == call)
}

#[test]
fn a_read_that_fails(rt: HostRuntime) -> Result<(), Fail> {
    for call in 1..4u64 {
        assert!(rt; fails_once(rt.alloc(), CURL, call)?);
    }
    Ok(())
}

static CLOCK: &[u8] =
    b"HTTP/1.1 200 OK\r\nContent-Type: application/json\r\nContent-Length: 52\r\n\r\n{\"synchronized\":false,\"time\":\"1970-01-01T00:00:00Z\"}";

static NOT_ALLOWED: &[u8] =
    b"HTTP/1.1 405 Method Not Allowed\r\nContent-Type: application/json\r\nAllow: GET, POST\r\nContent-Length: 0\r\nConnection: close\r\n\r\n";

/// Whether a response that is read is written again as it was.
fn response_again(alloc: Global, bytes: &[u8]) -> Result<bool, Fail> {
    match read_response(alloc, &mut reader(alloc, bytes, 7)?) {
        Ok(response) => Ok(is_written(response_bytes(alloc, &response), bytes)),
        Err(_) => Ok(false),
    }
}

fn is_written(written: Result<Vec<u8>, Memory>, bytes: &[u8]) -> bool {
    match written {
        Ok(written) => written.as_slice() == bytes,
        Err(_) => false,
    }
}

#[test]
fn responses_are_written_as_they_were_read(rt: HostRuntime) -> Result<(), Fail> {
    assert!(rt; response_again(rt.alloc(), CLOCK)?);
    assert!(rt; response_again(rt.alloc(), NOT_ALLOWED)?);
    assert!(rt; response_again(rt.alloc(), fixed_reply(500, true))?);
    assert!(rt; response_again(rt.alloc(), fixed_reply(503, false))?);
    Ok(())
}

/// Reads bytes that are to be one response, with spans of its own.
fn read_once(alloc: Global, bytes: &[u8], limits: HttpLimits) -> Result<Response, ReplyFault>
    requires { limits.head ≤ 16384 }
{
    match FieldSpans::new(alloc) {
        Ok(mut fields) => read_reply(alloc, &mut fields, bytes, limits),
        Err(_) => Err(ReplyFault::Memory),
    }
}

/// Whether the bytes are one response, which is written again as it was.
fn reply_again(alloc: Global, bytes: &[u8]) -> bool {
    match read_once(alloc, bytes, LIMITS) {
        Ok(response) => is_written(response_bytes(alloc, &response), bytes),
        Err(_) => false,
    }
}

#[test]
fn replies_are_written_as_they_were_read(rt: HostRuntime) -> Result<(), Fail> {
    assert!(rt; reply_again(rt.alloc(), CLOCK));
    assert!(rt; reply_again(rt.alloc(), NOT_ALLOWED));
    Ok(())
}

// What isn't one response, and why.
static NO_REPLIES: [(&str, ReplyFault); 11] = [
    (
        "HTTP/1.1 200 OK~Content-Length: 0~~b",
        ReplyFault::Follows(1),
    ),
    (
        "HTTP/1.1 200 OK~Content-Length: 1~~b~~",
        ReplyFault::Follows(4),
    ),
    (
        "HTTP/1.1 200 OK~Content-Length: 0~~HTTP/1.1 200 OK~Content-Length: 0~~",
        ReplyFault::Follows(38),
    ),
    ("", ReplyFault::Refused(HttpFault::EndInside(0))),
    (
        "HTTP/1.1 200",
        ReplyFault::Refused(HttpFault::EndInside(12)),
    ),
    (
        "HTTP/1.1 200 OK~Content-Length: 2~~b",
        ReplyFault::Refused(HttpFault::EndInside(39)),
    ),
    (
        "HTTP/1.1 20 OK~Content-Length: 0~~",
        ReplyFault::Refused(HttpFault::BadHead),
    ),
    (
        "HTTP/1.1 200 OK~Content-Length: 0~ps-peer: x~~",
        ReplyFault::Refused(HttpFault::BadHead),
    ),
    (
        "HTTP/1.1 200 OK~Content-Length: 1048577~~",
        ReplyFault::Refused(HttpFault::TooLarge),
    ),
    (
        "HTTP/1.1 200 OK~~",
        ReplyFault::Refused(HttpFault::NoLength),
    ),
    (
        "HTTP/1.1 200 OK~Transfer-Encoding: chunked~Content-Length: 0~~",
        ReplyFault::Refused(HttpFault::NoLength),
    ),
];

/// Whether the bytes are refused so.
fn is_no_reply(alloc: Global, bytes: &[u8], limits: HttpLimits, wanted: ReplyFault) -> bool
    requires { limits.head ≤ 16384 }
{
    match read_once(alloc, bytes, limits) {
        Ok(_) => false,
        Err(fault) => fault == wanted,
    }
}

fn check_replies(alloc: Global, cases: &[(&str, ReplyFault)]) -> Result<(), Fail> {
    for (case, wanted) in cases {
        let bytes = expanded(alloc, case)?;
        if !is_no_reply(alloc, bytes.as_slice(), LIMITS, *wanted) {
            return Err(Fail::new(format_args!("{case:?} isn't {wanted:?}")));
        }
    }
    Ok(())
}

#[test]
fn what_is_no_reply(rt: HostRuntime) -> Result<(), Fail> {
    check_replies(rt.alloc(), &NO_REPLIES)
}

// A head of 38 bytes and a body of one.
static SHORT: &[u8] = b"HTTP/1.1 200 OK\r\nContent-Length: 1\r\n\r\nb";

#[test]
fn the_limits_of_a_reply(rt: HostRuntime) -> Result<(), Fail> {
    let alloc = rt.alloc();
    let large = ReplyFault::Refused(HttpFault::TooLarge);
    assert!(rt; read_once(alloc, SHORT, HttpLimits { head: 38, body: 1 }).is_ok());
    assert!(rt; is_no_reply(alloc, SHORT, HttpLimits { head: 38, body: 0 }, large));
    assert!(rt; is_no_reply(alloc, SHORT, HttpLimits { head: 37, body: 1 }, large));
    assert!(rt; is_no_reply(alloc, SHORT, HttpLimits { head: 0, body: 1 }, large));
    Ok(())
}

static PEERS: &[u8] =
    b"PUT /pscheduler/peer?x HTTP/1.1\r\nHost: b:8080\r\nps-peer: 7 Key1\r\nContent-Length: 4\r\nConnection: close\r\n\r\nbody";

static PLAIN: &[u8] = b"GET /pscheduler HTTP/1.1\r\nHost: b:8080\r\nConnection: close\r\n\r\n";

/// Whether a request that is read is written again as it was.
fn request_again(alloc: Global, bytes: &[u8], authority: &str) -> Result<bool, Fail> {
    match read_request(alloc, &mut reader(alloc, bytes, 7)?) {
        Ok(Some(request)) => Ok(is_written(request_bytes(alloc, &request, authority), bytes)),
        _ => Ok(false),
    }
}

#[test]
fn requests_are_written_as_they_were_read(rt: HostRuntime) -> Result<(), Fail> {
    assert!(rt; request_again(rt.alloc(), PEERS, "b:8080")?);
    assert!(rt; request_again(rt.alloc(), PLAIN, "b:8080")?);
    Ok(())
}

/// Reads a request and answers it, over a stream that is lent. Where that was done, the reply went
/// out, and nothing else.
fn answer<T: Stream>(alloc: Global, reader: &mut Reader<&mut T>) -> bool
    ensures written { IsTrue result → Appends (T.Sink.written reader.old.source.now) (T.Sink.written reader.new.source.now) (response_text (fault_response 503 false)) }
{
    let Ok(mut fields) = FieldSpans::new(alloc) else {
        return false;
    };
    match reader.read_request(alloc, &mut fields, LIMITS) {
        Ok(Some(_)) => write_all(reader.source(), fixed_reply(503, false)).is_ok(),
        _ => false,
    }
}

/// Answers two requests, and finds no third.
fn answers_two(alloc: Global, stream: &mut MemoryStream) -> bool {
    let Ok(mut reader) = Reader::new(alloc, stream) else {
        return false;
    };
    let two = answer(alloc, &mut reader)
        && answer(alloc, &mut reader)
        && !answer(alloc, &mut reader);
    let _stream = reader.into_source();
    two
}

#[test]
fn a_stream_that_is_lent(rt: HostRuntime) -> Result<(), Fail> {
    let alloc = rt.alloc();
    let bytes = CURL.to_vec(alloc)?;
    let mut stream = MemoryStream::new(alloc, bytes, Vec::new(alloc));
    assert!(rt; answers_two(alloc, &mut stream));
    assert_eq!(rt; stream.written().len(), 2 * fixed_reply(503, false).len());
    Ok(())
}
