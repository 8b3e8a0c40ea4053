// Calls at random, over real files and over the device in memory: both answer the same.
ghost use Rattle.std.specs.Prelude.{◌<◌};

use crate::tests::{contents, empty_folder};
use disk::{CATALOG, CursorSlot, DeviceError, FileId, Shelf, served};
use disk_fs::FsShelf;
use disk_mem::MemShelf;
use std::alloc::Global;
use std::test::Fail;

const FOLDER: &str = "disk_fs_random";

// Numbers at random, the same in each run.
#[derive(Drop)]
struct Dice {
    state: u64,
}

impl Dice {
    // Some number below the bound.
    fn below(&mut self, bound: u64) -> u64
        requires { 0 < bound }
        ensures { result < bound }
    {
        self.state = self
            .state
            .wrapping_mul(6364136223846793005)
            .wrapping_add(1442695040888963407);
        (self.state >> 33) % bound
    }
}

// One of twelve files: more than stay open.
fn file_of(number: u64) -> FileId {
    match number {
        0 => CATALOG,
        1 => FileId::Slot {
            topic: served(1),
            slot: CursorSlot::Zero,
        },
        2 => FileId::Slot {
            topic: served(1),
            slot: CursorSlot::One,
        },
        _ => FileId::Segment {
            topic: served(1),
            number,
        },
    }
}

// Works one call on both, and whether they answer the same. A write begins at the end of the file at most, since what stands
// between the end and a write behind it isn't said.
fn agree(
    dice: &mut Dice,
    real: &mut impl Shelf,
    memory: &mut impl Shelf,
) -> Result<bool, DeviceError> {
    let file = file_of(dice.below(12));
    let text = b"the quick brown fox jumps over the lazy dog";
    let len = memory.length(file)?;
    match dice.below(5) {
        0 => {
            let offset = dice.below(len.saturating_add(1));
            let start = dice.below(20) as usize;
            let end = start + dice.below(20) as usize;
            let bytes = &text[start..end];
            real.write_at(file, offset, bytes)?;
            memory.write_at(file, offset, bytes)?;
        }
        1 => {
            let len = dice.below(40);
            real.cut(file, len)?;
            memory.cut(file, len)?;
        }
        2 => {
            real.sync(file)?;
            memory.sync(file)?;
        }
        3 => return read_the_same(file, dice.below(50), real, memory),
        _ => return Ok(real.length(file)? == len),
    }
    Ok(true)
}

fn read_the_same(
    file: FileId,
    offset: u64,
    real: &mut impl Shelf,
    memory: &mut impl Shelf,
) -> Result<bool, DeviceError> {
    let mut found = [b'-'; 24];
    let mut wanted = [b'-'; 24];
    let count = real.read(file, offset, &mut found)?;
    Ok(count == memory.read(file, offset, &mut wanted)? && found == wanted)
}

// Whether so many calls at random answer the same.
fn agree_in_turn(
    count: u64,
    dice: &mut Dice,
    real: &mut impl Shelf,
    memory: &mut impl Shelf,
) -> Result<bool, DeviceError> {
    for _ in 0..count {
        if !agree(dice, real, memory)? {
            return Ok(false);
        }
    }
    Ok(true)
}

// Whether reads give the same of each file.
fn hold_the_same(
    alloc: Global,
    real: &mut impl Shelf,
    memory: &mut impl Shelf,
) -> Result<bool, DeviceError> {
    for number in 0..12 {
        let found = contents(alloc, real, file_of(number))?;
        let wanted = contents(alloc, memory, file_of(number))?;
        if found.as_slice() != wanted.as_slice() {
            return Ok(false);
        }
    }
    Ok(true)
}

// Both over a new shelf of the folder, and the files behind that.
fn agree_anew(
    rt: &HostRuntime,
    count: u64,
    dice: &mut Dice,
    memory: &mut MemShelf,
) -> Result<bool, DeviceError> {
    let Ok(path) = String::from_str(rt.alloc(), FOLDER) else {
        return Err(DeviceError);
    };
    let mut real = FsShelf::new(rt, rt.alloc(), path);
    Ok(
        agree_in_turn(count, dice, &mut real, memory)?
            && hold_the_same(rt.alloc(), &mut real, memory)?,
    )
}

#[test]
fn calls_at_random_answer_the_same(rt: HostRuntime) -> Result<(), Fail> {
    empty_folder(&rt, FOLDER)?;
    let mut memory = MemShelf::new(rt.alloc());
    let mut dice = Dice { state: 1 };
    for count in [250, 250, 250, 250, 0] {
        assert!(rt; agree_anew(&rt, count, &mut dice, &mut memory)?);
    }
    Ok(())
}
