ghost use Rattle.std.specs.Prelude.{◌≡◌, ◌<◌, ◌++◌, length, IfOk, IfErr, List, ℕ};
ghost use Rattle.frames.specs.Faults.{IsFaulty};
ghost use Rattle.frames.specs.Streams.{Adds, IsUnfinished};
ghost use Rattle.frames.specs.Taking.{Takes, Gathers};

use crate::fault::Fault;
use crate::frame::Frame;
use crate::reading::{frame_of, is_whole, needed, whole_front};
use crate::whole::Whole;
use commands::size_at;
use std::alloc::{AllocError, Global};
use std::marker::Model;
use std::mem;

/// Cuts a stream of bytes into frames. Contracts see the bytes of the unfinished frame, which are
/// all that it keeps, and the fault that ended the stream. A frame that stands whole in a piece is
/// read where it stands, and an entry gets a copy of it. The bytes of another one are gathered in
/// memory of their own, which grows by the bytes that have come, whatever size the frame tells.
#[derive(Drop)]
pub struct Parser {
    alloc: Global,
    unfinished: Vec<u8>,
    fault: Option<Fault>,
}

impl Model for Parser {
    ghost use Rattle.frames.specs.Streams.{Progress, IsUnfinished};

    ghost Value = { Progress };

    ghost view = { λ p. record { rest = p.unfinished.items; fault = p.fault } };

    ghost invariant = { λ p. IsUnfinished p.unfinished.items };
}

impl Parser {
    ghost use Rattle.std.specs.Prelude.{◌≡◌};
    ghost use Rattle.frames.specs.Streams.{at_start, FeedsOn};

    /// A parser of a new stream. Memory is taken once bytes come.
    pub fn new(alloc: Global) -> Parser
        ensures { result ≡ at_start }
    {
        Parser {
            alloc,
            unfinished: Vec::new(alloc),
            fault: None,
        }
    }

    /// Adds each frame that is whole now, and keeps the bytes of the unfinished one. The frames
    /// before a fault are added, and then every call answers that fault, want of memory too.
    pub fn feed(&mut self, piece: &[u8], frames: &mut Vec<Frame>) -> Result<(), Fault>
        ensures { FeedsOn self.old piece.now frames.old.items frames.new.items result self.new }
    {
        if let Some(fault) = self.fault {
            return Err(fault);
        }
        let unfinished = mem::replace(&mut self.unfinished, Vec::new(self.alloc));
        match add_frames(self.alloc, unfinished, piece, frames) {
            Ok(rest) => {
                self.unfinished = rest;
                Ok(())
            }
            Err(fault) => {
                self.fault = Some(fault);
                Err(fault)
            }
        }
    }
}

/// Adds the frames of the unfinished frame's bytes and the piece, and gives the bytes of the
/// frame that is unfinished then.
fn add_frames(
    alloc: Global,
    mut unfinished: Vec<u8>,
    piece: &[u8],
    frames: &mut Vec<Frame>,
) -> Result<Vec<u8>, Fault>
    requires { IsUnfinished unfinished.items }
    ensures ok { IfOk result (λ rest. Adds (unfinished.items ++ piece.now) frames.old.items frames.new.items rest.items
        × IsUnfinished rest.items) }
    ensures err { IfErr result (λ fault. (left : List ℕ)
        × Adds (unfinished.items ++ piece.now) frames.old.items frames.new.items left × IsFaulty fault left) }
{
    let mut rest = piece;
    'pieces: while !rest.is_empty() {
        let taken = take_bytes(alloc, &mut unfinished, rest, frames)?;
        let (_, behind) = rest.split_at(taken);
        rest = behind;
    }
    Ok(unfinished)
}

/// Takes bytes of the piece, at most as many as the unfinished frame is known to take, and adds the frame if it is whole then.
/// Gives how many bytes it took.
fn take_bytes(
    alloc: Global,
    unfinished: &mut Vec<u8>,
    piece: &[u8],
    frames: &mut Vec<Frame>,
) -> Result<usize, Fault>
    requires some { 0 < length piece.now }
    requires unfinished { IsUnfinished unfinished.old.items }
    ensures { Takes unfinished.old.items piece.now frames.old.items result unfinished.new.items frames.new.items }
{
    let (taken, whole) = gather(alloc, unfinished, piece)?;
    let Some(bytes) = whole else {
        return Ok(taken);
    };
    let frame = frame_of(alloc, bytes)?;
    frames.push(frame)?;
    Ok(taken)
}

/// Finds the frame whole at the front of the piece, or moves bytes of the piece to the unfinished frame's. Gives how many bytes
/// it took, and those of the frame if it is whole then.
fn gather<'a>(
    alloc: Global,
    unfinished: &mut Vec<u8>,
    piece: &'a [u8],
) -> Result<(usize, Option<Whole<'a>>), Fault>
    requires some { 0 < length piece.now }
    requires unfinished { IsUnfinished unfinished.old.items }
    ensures { Gathers unfinished.old.items piece.now result unfinished.new.items }
{
    if unfinished.is_empty()
        && let Some(size) = whole_front(piece)?
    {
        return Ok((size, Some(Whole::Lent(&piece[..size]))));
    }
    make_room(unfinished, piece)?;
    let missing = needed(unfinished.as_slice()) - unfinished.len();
    let taken = missing.min(piece.len());
    unfinished.extend_from_slice(&piece[..taken])?;
    if !is_whole(unfinished.as_slice())? {
        return Ok((taken, None));
    }
    let bytes = mem::replace(unfinished, Vec::new(alloc));
    Ok((taken, Some(Whole::Own(bytes))))
}

/// Makes room at once for those of the piece's bytes that are of the frame which begins with it: for no byte that hasn't come.
fn make_room(unfinished: &mut Vec<u8>, piece: &[u8]) -> Result<(), AllocError>
    ensures { unfinished.new.items ≡ unfinished.old.items }
{
    if !unfinished.is_empty() || piece.len() < 4 {
        return Ok(());
    }
    let size = size_at(piece);
    unfinished.reserve(piece.len().min(4 + size))?;
    Ok(())
}
