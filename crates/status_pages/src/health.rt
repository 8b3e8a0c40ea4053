// Whether no topic is failed.
ghost use Rattle.std.specs.Prelude.{◌≡◌, Ok, true, false};
ghost use Rattle.status_pages.specs.Pages.{AllWork, OneFailed};

use crate::board::Board;
use crate::pages::print_topics;
use crate::parts::Part;
use crate::picture::MOST_TOPICS;
use std::alloc::{AllocError, Global};
use std::io;
use std::io::Write;

/// Whether no topic is failed. An error is want of memory.
pub fn is_healthy<B: Board>(board: &B) -> Result<bool, AllocError>
    ensures well { result ≡ Ok true → AllWork (B.topic_told board.now) }
    ensures failed { result ≡ Ok false → OneFailed (B.topic_told board.now) }
{
    for number in 0..MOST_TOPICS {
        let Some(topic) = board.topic(number)? else {
            return Ok(true);
        };
        if topic.summary.is_failed {
            return Ok(false);
        }
    }
    Ok(true)
}

/// Writes `ok`, or a line for each topic that is failed.
pub(crate) fn print_health<B: Board, W: Write>(
    alloc: Global,
    board: &B,
    is_healthy: bool,
    writer: &mut W,
) -> io::Result<()> {
    if is_healthy {
        writeln!(writer, "ok")
    } else {
        print_topics(alloc, board, Part::Failures, writer)
    }
}
