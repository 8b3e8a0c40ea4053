// Where status lines are written.
ghost use Rattle.std.specs.Prelude.{ℕ, List, Option, ⊤, OnOk, OnErr};
ghost use Rattle.std.specs.Io.KnownBytes.{Appends};

use std::io;
use std::io::Write;

/// Where status lines are written, which may fail.
pub trait Sink {
    // The bytes that it holds, where they are known.
    ghost contents: { Self → Option (List ℕ) };

    // That it may fail.
    ghost can_fail: { Type 0 };

    /// Writes all the bytes.
    fn write_whole(&mut self, bytes: &[u8]) -> io::Result<()>
        ensures written { OnOk result (Appends (contents self.old) (contents self.new) bytes.now) }
        ensures cause { OnErr result can_fail };
}

/// Any writer may.
impl<W: Write> Sink for W {
    ghost contents = { W.contents };

    ghost can_fail = { ⊤ };

    fn write_whole(&mut self, bytes: &[u8]) -> io::Result<()> {
        self.write_all(bytes)
    }
}
