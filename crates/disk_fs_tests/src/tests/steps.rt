// Steps that a test takes one behind another, and whether they go as they must.
use super::plan::Plan;
use super::{FILE, OTHER, file_of};
use disk::{DeviceError, Shelf, persist};
use std::fs;
use std::io::ErrorKind;
use std::rt::Files;
use watched_files::Call;

/// What is asked of a shelf for a file, and what is found.
#[derive(Clone, Copy)]
pub(crate) enum Ask {
    /// These bytes are written from an offset on.
    Write(u64, &'static [u8]),
    /// The same, and they are on the device.
    Persist(u64, &'static [u8]),
    /// The file is cut to a length.
    Cut(u64),
    Sync,
    /// The file has this length.
    Length(u64),
    /// From an offset on so many bytes are found, and a buffer of nine dashes is these then.
    Read(u64, usize, [u8; 9]),
}

/// A step over a shelf whose calls of the system go by a plan.
#[derive(Clone, Copy)]
pub(crate) enum Step {
    /// Each of these files, in turn, answers so.
    Works(&'static [u64], Ask),
    /// Each of them fails.
    Fails(&'static [u64], Ask),
    /// The nth of these calls of the system from now is to fail so.
    Order(Call, u64, ErrorKind),
    /// It has failed; else memory was refused before it.
    HasFailed,
    /// The same, where memory isn't wanted.
    IsSpent,
    /// Each call fails, but for those that begin anew, and asks nothing of the system.
    HasGivenUp,
    /// So many of these calls were made.
    Made(Call, u64),
    /// From now on a read or a write moves so many bytes at most.
    MoveAtMost(usize),
    /// Whether a file of this path stands.
    Stands(&'static str, bool),
}

// Asks for a file, and whether it answers so.
fn works(shelf: &mut impl Shelf, number: u64, ask: Ask) -> Result<bool, DeviceError> {
    let file = file_of(number);
    match ask {
        Ask::Write(offset, bytes) => shelf.write_at(file, offset, bytes)?,
        Ask::Persist(offset, bytes) => persist(shelf, file, offset, bytes)?,
        Ask::Cut(len) => shelf.cut(file, len)?,
        Ask::Sync => shelf.sync(file)?,
        Ask::Length(len) => return Ok(shelf.length(file)? == len),
        Ask::Read(offset, count, bytes) => {
            let mut buffer = [b'-'; 9];
            let found = shelf.read(file, offset, &mut buffer)?;
            return Ok(found == count && buffer == bytes);
        }
    }
    Ok(true)
}

fn each_works(shelf: &mut impl Shelf, numbers: &[u64], ask: Ask) -> Result<bool, DeviceError> {
    for number in numbers {
        if !works(shelf, *number, ask)? {
            return Ok(false);
        }
    }
    Ok(true)
}

fn each_fails(shelf: &mut impl Shelf, numbers: &[u64], ask: Ask) -> bool {
    for number in numbers {
        if works(shelf, *number, ask).is_ok() {
            return false;
        }
    }
    true
}

// One call of each kind that doesn't begin anew.
const CALLS: [Ask; 4] = [
    Ask::Read(0, 0, [b'-'; 9]),
    Ask::Write(0, b"a"),
    Ask::Cut(1),
    Ask::Length(0),
];

// Whether each of these calls of the shelf fails, on either file, and asks nothing of the system.
fn has_given_up(shelf: &mut impl Shelf, plan: &Plan) -> bool {
    let before = plan.total();
    for ask in CALLS {
        if !each_fails(shelf, &[FILE, OTHER], ask) {
            return false;
        }
    }
    plan.total() == before
}

// Whether the step goes as it must.
fn goes(
    rt: &impl Files,
    plan: &Plan,
    shelf: &mut impl Shelf,
    step: Step,
) -> Result<bool, DeviceError> {
    match step {
        Step::Works(numbers, ask) => each_works(shelf, numbers, ask),
        Step::Fails(numbers, ask) => Ok(each_fails(shelf, numbers, ask)),
        Step::Order(call, n, kind) => {
            plan.fail(Some(call), n, kind);
            Ok(true)
        }
        Step::HasFailed if plan.is_armed() => Err(DeviceError),
        Step::HasFailed => Ok(true),
        Step::IsSpent => Ok(!plan.is_armed()),
        Step::HasGivenUp => Ok(has_given_up(shelf, plan)),
        Step::Made(call, count) => Ok(plan.count(call) == count),
        Step::MoveAtMost(piece) => {
            plan.move_at_most(piece);
            Ok(true)
        }
        Step::Stands(path, wanted) => match fs::exists(rt, path) {
            Ok(stands) => Ok(stands == wanted),
            Err(_) => Err(DeviceError),
        },
    }
}

/// The number of the first step that goes otherwise, where there is one.
pub(crate) fn first_wrong(
    rt: &impl Files,
    plan: &Plan,
    shelf: &mut impl Shelf,
    steps: &[Step],
) -> Result<Option<usize>, DeviceError> {
    for index in 0..steps.len() {
        if !goes(rt, plan, shelf, steps[index])? {
            return Ok(Some(index));
        }
    }
    Ok(None)
}
