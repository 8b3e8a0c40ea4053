// A request is read from a client, and answered.
ghost use Rattle.std.specs.Prelude.{◌≤◌, length};

use crate::board::Board;
use crate::body::{Body, fault_of};
use crate::health::{is_healthy, print_health};
use crate::overview::print_overview;
use crate::pages::{print_metrics, print_status};
use crate::requests::{Answer, Page, answer_to, status_of};
use bytes::BytesMut;
use http1::{BodySize, Event, Header, Limits, Server};
use httparse::spans::{EMPTY_HEADER_SPAN, RequestSpans};
use std::alloc::Global;
use std::io;
use std::io::{Read, Write};

/// The longest head of a request, in bytes. Our own rule.
const LONGEST_HEAD: usize = 8192;

/// The most fields of a head. Our own rule.
const MOST_FIELDS: usize = 64;

/// How a request is answered.
#[derive(Clone, Copy, Debug)]
struct Request {
    answer: Answer,
    /// Whether only the head of the answer is asked for.
    is_head: bool,
}

/// Reads one request, and answers it by what the board tells now. Behind the answer the connection is to be closed, as the client is
/// told. A client that closes before it has sent the head of a request is answered nothing.
///
/// It holds 24 KiB and what is told of one topic. A fault of the reader or the writer is handed on, and so is want of memory.
pub fn answer<B: Board, R: Read, W: Write>(
    alloc: Global,
    board: &B,
    reader: &mut R,
    writer: &mut W,
) -> io::Result<()> {
    let mut server = Server::new(Limits {
        max_head_len: LONGEST_HEAD,
        max_extensions_len: LONGEST_HEAD,
        max_trailers_len: LONGEST_HEAD,
    });
    match read_request(alloc, &mut server, reader)? {
        Some(request) => respond(alloc, board, server, request, writer),
        None => Ok(()),
    }
}

// The request that comes first; none where the client closes before it is there.
fn read_request<R: Read>(
    alloc: Global,
    server: &mut Server,
    reader: &mut R,
) -> io::Result<Option<Request>> {
    let mut input = BytesMut::new(alloc);
    input.reserve(LONGEST_HEAD)?;
    let mut spans = [EMPTY_HEADER_SPAN; MOST_FIELDS];
    // Each turn but the last takes a byte, and a head that is longer is refused.
    for _ in 0..=LONGEST_HEAD {
        match server.read(input.as_slice(), &mut spans) {
            Ok(read) => match read.event {
                Event::Head(head) => return Ok(Some(request_of(input.as_slice(), &head))),
                Event::NeedMore => {}
                _ => return Ok(None),
            },
            Err(why) => {
                return Ok(Some(Request {
                    answer: Answer::Refused(why.status()),
                    is_head: false,
                }));
            }
        }
        if input.read_from(reader)? == 0 {
            return Ok(None);
        }
    }
    Ok(None)
}

// What the head asks for.
fn request_of(input: &[u8], head: &RequestSpans) -> Request
    requires method { (head.now.method.start ≤ head.now.method.end) × (head.now.method.end ≤ length input.now) }
    requires path { (head.now.path.start ≤ head.now.path.end) × (head.now.path.end ≤ length input.now) }
{
    let (Ok(method), Ok(target)) = (
        str::from_utf8(head.method.of(input)),
        str::from_utf8(head.path.of(input)),
    ) else {
        return Request {
            answer: Answer::Refused(400),
            is_head: false,
        };
    };
    Request {
        answer: answer_to(method, target),
        is_head: method == "HEAD",
    }
}

// Writes the answer to a request.
fn respond<B: Board, W: Write>(
    alloc: Global,
    board: &B,
    server: Server,
    request: Request,
    writer: &mut W,
) -> io::Result<()> {
    let mut server = server;
    let answer = request.answer;
    let is_healthy = is_healthy(board)?;
    let mut head = BytesMut::new(alloc);
    write_head(
        &mut server,
        &mut head,
        answer,
        status_of(answer, is_healthy),
    )?;
    writer.write_all(head.as_slice())?;
    if request.is_head {
        return writer.flush();
    }
    let mut body = Body::new(alloc, server, writer)?;
    print_answer(alloc, board, answer, is_healthy, &mut body)?;
    body.end()
}

// Writes the head of an answer.
fn write_head(
    server: &mut Server,
    head: &mut BytesMut,
    answer: Answer,
    status: u16,
) -> io::Result<()> {
    let headers = [
        Header {
            name: b"content-type",
            value: content_type_of(answer).as_bytes(),
        },
        Header {
            name: b"cache-control",
            value: b"no-store",
        },
        Header {
            name: b"x-content-type-options",
            value: b"nosniff",
        },
        Header {
            name: b"content-security-policy",
            value: b"default-src 'none'; style-src 'unsafe-inline'",
        },
        Header {
            name: b"connection",
            value: b"close",
        },
        Header {
            name: b"allow",
            value: b"GET, HEAD",
        },
    ];
    // The last one is for a method that isn't allowed.
    let count = if status == 405 { 6 } else { 5 };
    let reason = reason_of(status).as_bytes();
    server
        .write_response(head, status, reason, &headers[..count], BodySize::Unknown)
        .map_err(fault_of)
}

fn content_type_of(answer: Answer) -> &'static str {
    match answer {
        Answer::Shown(Page::Overview) => "text/html; charset=utf-8",
        Answer::Shown(Page::Metrics) => "text/plain; version=0.0.4; charset=utf-8",
        Answer::Shown(Page::Status | Page::Health)
        | Answer::NotFound
        | Answer::MethodNotAllowed
        | Answer::Refused(_) => "text/plain; charset=utf-8",
    }
}

fn reason_of(status: u16) -> &'static str {
    match status {
        200 => "OK",
        400 => "Bad Request",
        404 => "Not Found",
        405 => "Method Not Allowed",
        414 => "URI Too Long",
        431 => "Request Header Fields Too Large",
        503 => "Service Unavailable",
        _ => "",
    }
}

// Writes the body of an answer.
fn print_answer<B: Board, W: Write>(
    alloc: Global,
    board: &B,
    answer: Answer,
    is_healthy: bool,
    writer: &mut W,
) -> io::Result<()> {
    match answer {
        Answer::Shown(Page::Overview) => print_overview(alloc, board, writer),
        Answer::Shown(Page::Status) => print_status(alloc, board, writer),
        Answer::Shown(Page::Metrics) => print_metrics(alloc, board, writer),
        Answer::Shown(Page::Health) => print_health(alloc, board, is_healthy, writer),
        Answer::NotFound => writer.write_all(b"There are /, /status, /metrics and /health.\n"),
        Answer::MethodNotAllowed => writer.write_all(b"GET and HEAD are taken.\n"),
        Answer::Refused(_) => writer.write_all(b"The request isn't taken.\n"),
    }
}
