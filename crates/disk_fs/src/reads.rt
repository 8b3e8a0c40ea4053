// Reading all that there is.
ghost use Rattle.std.specs.Prelude.{◌≡◌, ◌≤◌, length, IfOk, IfSome};

use std::io;
use std::io::ErrorKind;
use std::os::unix::fs::FileExt;

// Reads once. None where a signal interrupted the call.
fn read_once<F: FileExt>(file: &F, offset: u64, buffer: &mut [u8]) -> io::Result<Option<usize>>
    ensures count { IfOk result (λ read. IfSome read (λ n. n ≤ length buffer.old)) }
    ensures same { length buffer.new ≡ length buffer.old }
{
    match file.read_at(buffer, offset) {
        Ok(count) => Ok(Some(count)),
        Err(error) if error.kind() == ErrorKind::Interrupted => Ok(None),
        Err(error) => Err(error),
    }
}

/// Reads until the buffer is full or the file ends, and answers how many bytes it found: a call of the system may find
/// fewer than there are.
pub(crate) fn read_whole<F: FileExt>(file: &F, offset: u64, buffer: &mut [u8]) -> io::Result<usize>
    ensures { IfOk result (λ n. n ≤ length buffer.old) }
{
    let mut filled = 0;
    'reads: for _ in 0..u64::MAX {
        if filled >= buffer.len() {
            break;
        }
        let at = offset.saturating_add(filled as u64);
        match read_once(file, at, &mut buffer[filled..])? {
            Some(0) => break,
            Some(count) => filled += count,
            None => {}
        }
    }
    Ok(filled)
}
