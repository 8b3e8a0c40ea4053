// What a connection writes, and the ring of the reader's replies.
ghost use Rattle.std.specs.Prelude.{◌<◌, ◌^◌};
ghost use Rattle.workers.specs.Outputs.{AreFrames};

use rtrb::Consumer;
use std::io;
use std::io::{ErrorKind, Write};

/// One output of a session: the frames that one feed or one pump gave.
#[derive(Drop)]
pub struct Output {
    pub number: u64,
    pub bytes: Vec<u8>,
    ghost small: { number < 2 ^ 62 },
    ghost whole: { AreFrames bytes.items },
}

/// Where a connection's outputs go.
#[derive(Drop)]
pub struct Outgoing<W> {
    /// What they are written to.
    pub writer: W,
    /// The ring of the reader's replies.
    pub replies: Consumer<Output>,
    /// All outputs of smaller number are written.
    pub next: u64,
    /// How many bytes of replies are written, at most 2^64 - 1.
    pub replied: u64,
}

impl<W: Write> Outgoing<W> {
    ghost use Rattle.std.specs.Prelude.{◌≡◌, ◌<◌, ◌≤◌, ◌^◌, OnOk, length};
    ghost use Rattle.rtrb.specs.Ring.{SameConsumer, known_items};
    ghost use Rattle.workers.specs.Writes.{Wrote};

    /// Writes the oldest reply, and takes it from the ring once it is written.
    pub fn write_known(&mut self) -> io::Result<()>
        requires { 0 < length (known_items self.old.replies) }
        ensures ring { SameConsumer self.old.replies self.new.replies }
        ensures wrote { OnOk result (Wrote W.contents self.old self.new) }
        ensures next { OnOk result ((self.old.next < self.new.next) × (self.new.next ≤ 2 ^ 62)) }
    {
        let reply = self.replies.peek_known();
        if reply.number < self.next {
            return Err(io::Error::from(ErrorKind::InvalidData));
        }
        self.writer.write_all(reply.bytes.as_slice())?;
        let reply = self.replies.pop_known();
        self.next = reply.number + 1;
        self.replied = self.replied.saturating_add(reply.bytes.len() as u64);
        Ok(())
    }
}

impl<W: Write> Outgoing<W> {
    ghost use Rattle.std.specs.Prelude.{◌≡◌, ◌<◌, ◌≤◌, ◌^◌, OnOk, IfOk, true, false};
    ghost use Rattle.rtrb.specs.Ring.{SameConsumer, known_items};
    ghost use Rattle.workers.specs.Writes.{Wrote, WroteServed, NoneBelow};

    // Writes the oldest reply, if its number is below this one.
    fn write_one_below(&mut self, number: u64) -> io::Result<bool>
        ensures ring { SameConsumer self.old.replies self.new.replies }
        ensures wrote { OnOk result (Wrote W.contents self.old self.new) }
        ensures done { IfOk result (λ one. one ≡ false → NoneBelow number (known_items self.new.replies)) }
        ensures next { IfOk result (λ one. one ≡ true → (self.old.next < self.new.next) × (self.new.next ≤ 2 ^ 62)) }
    {
        if self.replies.slots() == 0 || self.replies.peek_known().number >= number {
            return Ok(false);
        }
        self.write_known()?;
        Ok(true)
    }

    /// Writes the replies that stand in the ring, as far as their numbers are below this one.
    pub fn write_below(&mut self, number: u64) -> io::Result<()>
        ensures ring { SameConsumer self.old.replies self.new.replies }
        ensures wrote { OnOk result (Wrote W.contents self.old self.new) }
        ensures done { OnOk result (NoneBelow number (known_items self.new.replies)) }
    {
        while self.write_one_below(number)? {}
        Ok(())
    }

    /// Writes what was pumped, behind the replies of smaller numbers that stand in the ring.
    pub fn write_pumped(&mut self, output: &Output) -> io::Result<()>
        ensures ring { SameConsumer self.old.replies self.new.replies }
        ensures wrote { OnOk result (Wrote W.contents self.old self.new) }
        ensures served { OnOk result (WroteServed W.contents self.old self.new output.now.number output.now.bytes.items) }
        ensures behind { OnOk result (NoneBelow output.now.number (known_items self.new.replies)) }
    {
        self.write_below(output.number)?;
        if output.number < self.next {
            return Err(io::Error::from(ErrorKind::InvalidData));
        }
        self.writer.write_all(output.bytes.as_slice())?;
        self.next = output.number + 1;
        Ok(())
    }

    /// Passes over a number that no output has, behind the replies of smaller numbers that stand in the ring.
    pub fn pass_over(&mut self, number: u64) -> io::Result<()>
        requires { number < 2 ^ 62 }
        ensures ring { SameConsumer self.old.replies self.new.replies }
        ensures wrote { OnOk result (Wrote W.contents self.old self.new) }
        ensures behind { OnOk result (NoneBelow number (known_items self.new.replies)) }
        ensures passed { OnOk result (number < self.new.next) }
    {
        self.write_below(number)?;
        self.next = self.next.max(number + 1);
        Ok(())
    }
}
