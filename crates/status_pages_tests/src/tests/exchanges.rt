use crate::tests::board::Plain;
use status_pages::{Answer, Page, answer, answer_to, status_of};
use std::alloc::Global;
use std::io;
use std::io::{ErrorKind, Write};
use std::test::Fail;

// What is answered to these bytes, of a broker with one topic.
fn answered(alloc: Global, request: &[u8], is_failed: bool) -> Result<Vec<u8>, Fail> {
    let board = Plain::new(alloc, 1, is_failed)?;
    let mut reader = request;
    let mut answer_bytes = Vec::new(alloc);
    answer(alloc, &board, &mut reader, &mut answer_bytes)?;
    Ok(answer_bytes)
}

#[test]
fn each_request_has_its_answer(rt: HostRuntime) -> Result<(), Fail> {
    for (request, begin) in [
        (
            "GET / HTTP/1.1\r\nHost: a\r\n\r\n",
            "HTTP/1.1 200 OK\r\ncontent-type: text/html",
        ),
        (
            "GET /status HTTP/1.1\r\nHost: a\r\n\r\n",
            "HTTP/1.1 200 OK\r\ncontent-type: text/plain",
        ),
        (
            "GET /metrics HTTP/1.1\r\nHost: a\r\n\r\n",
            "HTTP/1.1 200 OK\r\ncontent-type: text/plain; version=0.0.4",
        ),
        ("GET /health HTTP/1.0\r\n\r\n", "HTTP/1.0 200 OK\r\n"),
        (
            "GET /other HTTP/1.1\r\nHost: a\r\n\r\n",
            "HTTP/1.1 404 Not Found\r\n",
        ),
        (
            "POST /status HTTP/1.1\r\nHost: a\r\ncontent-length: 2\r\n\r\nab",
            "HTTP/1.1 405 Method Not Allowed\r\n",
        ),
        ("GET /status\r\n\r\n", "HTTP/1.1 400 Bad Request\r\n"),
    ] {
        let found = answered(rt.alloc(), request.as_bytes(), false)?;
        let found = str::from_utf8(&found)?;
        assert!(rt; found.starts_with(begin), "{found}");
        assert!(rt; found.contains("\r\nconnection: close\r\n"), "{found}");
        assert_eq!(rt;
            found.contains("\r\nallow: GET, HEAD\r\n"),
            request.starts_with("POST")
        );
        assert_eq!(rt;
            found.contains("\r\ntransfer-encoding: chunked\r\n"),
            !request.contains("1.0")
        );
    }
    Ok(())
}

#[test]
fn health_is_the_state_of_topics(rt: HostRuntime) -> Result<(), Fail> {
    let found = answered(rt.alloc(), b"GET /health HTTP/1.0\r\n\r\n", true)?;
    let found = str::from_utf8(&found)?;
    assert!(rt;
        found.starts_with("HTTP/1.0 503 Service Unavailable\r\n"),
        "{found}"
    );
    assert!(rt;
        found.ends_with("\r\n\r\ntopic persistent://a/b/c has failed\n"),
        "{found}"
    );
    assert_eq!(rt; status_of(answer_to("HEAD", "/health"), false), 503);
    assert_eq!(rt; answer_to("get", "/health"), Answer::MethodNotAllowed);
    assert_eq!(rt; answer_to("GET", "/"), Answer::Shown(Page::Overview));
    Ok(())
}

#[test]
fn a_head_has_no_body(rt: HostRuntime) -> Result<(), Fail> {
    let found = answered(
        rt.alloc(),
        b"HEAD /metrics HTTP/1.1\r\nHost: a\r\n\r\n",
        false,
    )?;
    let found = str::from_utf8(&found)?;
    assert!(rt; found.starts_with("HTTP/1.1 200 OK\r\n"), "{found}");
    assert!(rt; found.ends_with("\r\n\r\n"), "{found}");
    Ok(())
}

#[test]
fn what_is_no_request_is_answered_nothing_or_a_refusal(rt: HostRuntime) -> Result<(), Fail> {
    assert_eq!(rt; answered(rt.alloc(), b"", false)?.len(), 0);
    assert_eq!(rt; answered(rt.alloc(), b"GET / HT", false)?.len(), 0);
    let mut long = Vec::from_slice(rt.alloc(), b"GET / HTTP/1.1\r\nHost: a\r\nlong: ")?;
    for _ in 0..9000 {
        long.push(b'x')?;
    }
    let found = answered(rt.alloc(), &long, false)?;
    assert!(rt; str::from_utf8(&found)?.starts_with("HTTP/1.1 431 "));
    Ok(())
}

// Takes so many bytes, and fails then.
#[derive(Drop)]
struct Poor {
    room: usize,
}

impl Write for Poor {
    fn write(&mut self, buf: &[u8]) -> io::Result<usize> {
        if self.room == 0 {
            return Err(io::Error::from(ErrorKind::BrokenPipe));
        }
        let count = buf.len().min(self.room);
        self.room -= count;
        Ok(count)
    }

    fn flush(&mut self) -> io::Result<()> {
        Ok(())
    }
}

#[test]
fn a_fault_of_the_writer_ends_the_answer(rt: HostRuntime) -> Result<(), Fail> {
    let board = Plain::new(rt.alloc(), 64, false)?;
    for room in [0, 100, 20_000] {
        let mut reader = b"GET /metrics HTTP/1.0\r\n\r\n".as_slice();
        let mut writer = Poor { room };
        let ended = answer(rt.alloc(), &board, &mut reader, &mut writer);
        let why = ended.as_ref().err().map(|error| error.kind());
        if why == Some(ErrorKind::OutOfMemory) {
            ended?;
        }
        assert_eq!(rt; why, Some(ErrorKind::BrokenPipe));
    }
    Ok(())
}
