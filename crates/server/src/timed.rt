// A client's socket, for a time.
use std::io;
use std::io::{ErrorKind, Read, Write};
use std::net::TcpStream;
use std::rt::Clock;
use std::time::{Duration, Instant};

/// A client's socket, which fails once a time is over, however little the client gives or takes at a time.
#[derive(Drop)]
pub(crate) struct Timed<'s, R> {
    rt: &'s R,
    stream: &'s TcpStream,
    began: Instant,
    whole: Duration,
}

impl<'s, R: Clock> Timed<'s, R> {
    /// The socket for so long, from now on.
    pub(crate) fn new(
        rt: &'s R,
        stream: &'s TcpStream,
        whole: Duration,
    ) -> io::Result<Timed<'s, R>> {
        let began = Instant::now(rt)?;
        Ok(Timed {
            rt,
            stream,
            began,
            whole,
        })
    }

    // How much of the time is left.
    fn left(&self) -> io::Result<Duration> {
        let left = self.whole.saturating_sub(self.began.elapsed(self.rt)?);
        if left.is_zero() {
            return Err(io::Error::from(ErrorKind::TimedOut));
        }
        Ok(left)
    }
}

impl<'s, R: Clock> Read for Timed<'s, R> {
    fn read(&mut self, buf: &mut [u8]) -> io::Result<usize> {
        let left = self.left()?;
        let mut stream = self.stream;
        stream.set_read_timeout(Some(left))?;
        stream.read(buf)
    }
}

impl<'s, R: Clock> Write for Timed<'s, R> {
    fn write(&mut self, buf: &[u8]) -> io::Result<usize> {
        let left = self.left()?;
        let mut stream = self.stream;
        stream.set_write_timeout(Some(left))?;
        stream.write(buf)
    }

    fn flush(&mut self) -> io::Result<()> {
        Ok(())
    }
}
