ghost use Rattle.std.specs.Prelude.{◌<◌};

use anyhow::{Error, bail};
use frames::Parser;
use std::alloc::{AllocError, Global};

const FRAME_SIZE: usize = 1024;

/// Sizes, a SEND of producer 1, and metadata; the payload fills the frame.
const HEAD: [u8; 27] = [
    0, 0, 3, 0xfc, 0, 0, 0, 8, 8, 6, 0x32, 4, 8, 1, 0x10, 0, 0, 0, 0, 7, 10, 1, 0x70, 0x10, 0,
    0x18, 1,
];

fn stream_of(alloc: Global, frames: u32) -> Result<Vec<u8>, AllocError> {
    let mut stream = Vec::new(alloc);
    for _ in 0..frames {
        stream.extend_from_slice(&HEAD)?;
        stream.extend_from_slice(&[b'x'; FRAME_SIZE - HEAD.len()])?;
    }
    Ok(stream)
}

fn frames_in(alloc: Global, stream: &[u8], piece: usize) -> Result<usize, Error>
    requires { 0 < piece }
{
    let mut parser = Parser::new(alloc);
    let mut frames = Vec::new(alloc);
    let mut count: usize = 0;
    for piece in stream.chunks(piece) {
        parser.feed(piece, &mut frames)?;
        count = count.saturating_add(frames.len());
        frames.clear();
    }
    Ok(count)
}

/// How many frames come out of a stream of 1 KiB SENDs, so many MiB of it, cut into pieces of so many bytes.
pub(crate) fn frames_of(alloc: Global, mebibytes: u64, piece: u64) -> Result<usize, Error> {
    if piece == 0 || piece > 1 << 30 || mebibytes > 1024 {
        bail!("a piece has a byte or more, and a stream at most 1024 MiB");
    }
    let stream = stream_of(alloc, mebibytes as u32 * 1024)?;
    frames_in(alloc, stream.as_slice(), piece as usize)
}
