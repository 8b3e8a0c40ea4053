use bells::Bells;
use std::io;
use std::io::{ErrorKind, Read, Write};
use std::sync::Wait;
use std::sync::atomic::{AtomicU64, Ordering};
use std::thread::Parker;
use workers::{Ends, Point, Turnstile};

/// What stands for a socket's end: whoever waits for it sleeps until it has come.
#[derive(Drop)]
pub struct Line {
    down: Parker,
}

impl Line {
    pub fn new() -> Line {
        Line {
            down: Parker::new(),
        }
    }

    /// Ends a wait, also one to come.
    pub fn take_down(&self) {
        self.down.unpark();
    }
}

/// Gives these bytes, so many a read, and waits behind them until the line is down.
#[derive(Drop)]
pub struct Source<'a, R: Wait> {
    rt: &'a R,
    left: &'a [u8],
    piece: usize,
    line: &'a Line,
}

impl<'a, R: Wait> Source<'a, R> {
    pub fn new(rt: &'a R, bytes: &'a [u8], piece: usize, line: &'a Line) -> Source<'a, R> {
        Source {
            rt,
            left: bytes,
            piece,
            line,
        }
    }
}

impl<'a, R: Wait> Read for Source<'a, R> {
    fn read(&mut self, buf: &mut [u8]) -> io::Result<usize> {
        if self.left.is_empty() {
            self.line.down.park(self.rt);
            return Ok(0);
        }
        let most = self.piece.min(buf.len());
        self.left.read(&mut buf[..most])
    }
}

/// Keeps what is written, in the room that it was given, up to a write that fails.
#[derive(Drop)]
pub struct Sink {
    pub bytes: Vec<u8>,
    /// So many writes go well.
    pub writes: u32,
}

impl Write for Sink {
    fn write(&mut self, buf: &[u8]) -> io::Result<usize> {
        if self.writes == 0 || self.bytes.extend_from_slice(buf).is_err() {
            return Err(io::Error::from(ErrorKind::BrokenPipe));
        }
        self.writes -= 1;
        Ok(buf.len())
    }

    fn flush(&mut self) -> io::Result<()> {
        Ok(())
    }
}

/// What the threads do behind their loops, over a line.
#[derive(Drop)]
pub struct HangUp<'a> {
    bells: &'a Bells,
    line: &'a Line,
}

impl<'a> HangUp<'a> {
    pub fn new(bells: &'a Bells, line: &'a Line) -> HangUp<'a> {
        HangUp { bells, line }
    }
}

impl<'a> Ends for HangUp<'a> {
    fn reader_is_over(&self) {
        self.bells.ring_writer(0);
    }

    fn writer_is_over(&self) {
        self.line.take_down();
        self.bells.ring_reader(0);
    }
}

/// Lets so many turns pass.
#[derive(Drop)]
pub struct Turns {
    pub left: AtomicU64,
}

impl Turnstile for Turns {
    fn pass(&self, _point: Point) -> bool {
        let left = self.left.load(Ordering::SeqCst);
        left > 0 && self.left.fetch_sub(1, Ordering::SeqCst) > 0
    }
}
