//! Tests of the end of a request's head.
use ps_sockets::head::has_empty_line;
use std::test::Fail;

#[test]
fn heads_that_are_there(rt: HostRuntime) -> Result<(), Fail> {
    assert!(rt; has_empty_line(b"GET / HTTP/1.1\r\nHost: a\r\n\r\n"));
    assert!(rt; has_empty_line(b"GET / HTTP/1.1\nHost: a\n\n{}"));
    assert!(rt; has_empty_line(b"GET / HTTP/1.1\nHost: a\n\r\n"));
    assert!(rt; !has_empty_line(b"GET / HTTP/1.1\r\nHost: a\r\n"));
    assert!(rt; !has_empty_line(b"GET / HTTP/1.1\r\nHost: a\r\n\r"));
    assert!(rt; !has_empty_line(b"\n\r"));
    assert!(rt; !has_empty_line(b"\n"));
    assert!(rt; !has_empty_line(b""));
    Ok(())
}
