// The body of a response, which is sent in pieces while it is made.
use bytes::BytesMut;
use http1::{Server, WriteError};
use std::alloc::Global;
use std::io;
use std::io::{ErrorKind, Write};

/// How many bytes are gathered before they are sent.
const PIECE: usize = 8192;

/// A body that goes out in pieces, each as the head of its response told that bodies come. What is written here is gathered, and is on
/// its way once `end` came back well.
#[derive(Drop)]
pub(crate) struct Body<'w, W: Write> {
    server: Server,
    piece: Vec<u8>,
    framed: BytesMut,
    writer: &'w mut W,
}

impl<'w, W: Write> Body<'w, W> {
    /// A body of which nothing is written yet, behind the head that the server has written.
    pub(crate) fn new(alloc: Global, server: Server, writer: &'w mut W) -> io::Result<Body<'w, W>> {
        let piece = Vec::with_capacity(alloc, PIECE)?;
        Ok(Body {
            server,
            piece,
            framed: BytesMut::new(alloc),
            writer,
        })
    }

    /// Sends what is left, and that nothing more comes.
    pub(crate) fn end(&mut self) -> io::Result<()> {
        self.send()?;
        self.framed.clear();
        self.server
            .write_end(&mut self.framed, &[])
            .map_err(fault_of)?;
        self.writer.write_all(self.framed.as_slice())?;
        self.writer.flush()
    }

    // Sends what was gathered.
    fn send(&mut self) -> io::Result<()> {
        if self.piece.is_empty() {
            return Ok(());
        }
        self.framed.clear();
        self.server
            .write_data(&mut self.framed, self.piece.as_slice())
            .map_err(fault_of)?;
        self.writer.write_all(self.framed.as_slice())?;
        self.piece.clear();
        Ok(())
    }
}

impl<'w, W: Write> Write for Body<'w, W> {
    fn write(&mut self, buf: &[u8]) -> io::Result<usize> {
        if self.piece.len() >= PIECE {
            self.send()?;
        }
        let count = buf.len().min(PIECE);
        self.piece.extend_from_slice(&buf[..count])?;
        Ok(count)
    }

    fn flush(&mut self) -> io::Result<()> {
        self.send()
    }
}

/// Why a response can't be written, as a fault of its writer.
pub(crate) fn fault_of(why: WriteError) -> io::Error {
    match why {
        WriteError::OutOfMemory => io::Error::from(ErrorKind::OutOfMemory),
        _ => io::Error::from(ErrorKind::InvalidData),
    }
}
