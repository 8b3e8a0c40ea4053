ghost use Rattle.std.specs.Prelude.{◌≡◌, ℕ, IfOk, option_map};
ghost use Rattle.std.specs.Io.BufRead.{strip_last};
ghost use Rattle.script.specs.Script.{IsScript, IsFirstBad};
ghost use Rattle.script.specs.Reading.{ReadsLines, ReadsScript, lines_from, pieces_of, script_of};
ghost use Rattle.script.specs.declared.script.Script.{Script};

use crate::line::{Line, LineFault, read_init, read_line};
use crate::sequence::Sequence;
use crate::text::first_piece;
use std::alloc::Global;
use thiserror::Error;

/// A script: what happens to a broker, in order.
#[derive(Drop)]
pub struct Script {
    /// How many entries a ledger has, 1 to 50,000.
    pub per_ledger: u64,
    pub lines: Sequence<Line>,
}

/// Why a script isn't read.
#[derive(Clone, Copy, Debug, PartialEq, Eq, Error)]
pub enum ScriptFault {
    /// The number of the first bad line, counted from 1.
    #[error("script line {0}")]
    BadLine(u64),
    #[error("no memory")]
    NoMemory,
}

/// Reads a whole script. Our own rule: `init N` comes first and only there, each further line is an event, a line feed
/// ends a line, and the last may lack it. Bytes without a line are bad in line 1.
pub fn read_script(alloc: Global, bytes: &[u8]) -> Result<Script, ScriptFault>
    // What is read is spelled so, and what is spelled so is read, unless memory runs out.
    ensures found { IfOk result (λ script. IsScript bytes.now script) }
    ensures only { (script : Script) → IsScript bytes.now script → ReadsScript result (Ok script) }

    // A bad line is the first one, and no other answer is given in its place, unless memory runs out.
    ensures bad { (k : ℕ) → result ≡ Err (ScriptFault.BadLine k) → IsFirstBad bytes.now k }
    ensures bad_only { (k : ℕ) → IsFirstBad bytes.now k → ReadsScript result (Err k) }
{
    script_from(alloc, bytes)
}

#[tactic(auto, unfolding(crate::specs::Reading::script_of_texts))]
fn script_from(alloc: Global, bytes: &[u8]) -> Result<Script, ScriptFault>
    ensures { ReadsScript result (script_of bytes.now) }
{
    let (first, rest) = first_piece(without_last_line_feed(bytes));
    let Some(per_ledger) = read_init(first) else {
        return Err(ScriptFault::BadLine(1));
    };
    match read_lines(alloc, rest) {
        Ok(lines) => Ok(Script { per_ledger, lines }),
        Err(fault) => Err(fault),
    }
}

fn without_last_line_feed(bytes: &[u8]) -> &[u8]
    ensures { result.now ≡ strip_last 10 bytes.now }
{
    bytes.strip_suffix(b"\n").unwrap_or(bytes)
}

// The lines behind the first.
fn read_lines(alloc: Global, bytes: Option<&[u8]>) -> Result<Sequence<Line>, ScriptFault>
    ensures { ReadsLines result (lines_from 2 (pieces_of (option_map (λ rest. rest.now) bytes.entry))) }
{
    let mut lines = Vec::new(alloc);
    let mut left = bytes;
    while let Some(bytes) = left {
        let (text, rest) = first_piece(bytes);
        let line = match read_line(alloc, text) {
            Ok(line) => line,
            Err(LineFault::Bad) => return Err(ScriptFault::BadLine(lines.len() as u64 + 2)),
            Err(LineFault::NoMemory) => return Err(ScriptFault::NoMemory),
        };
        lines.push(line).map_err(|_| ScriptFault::NoMemory)?;
        left = rest;
    }
    Ok(Sequence::new(lines))
}
