// What the log tells of calls of the system that fail.
use super::plan::Plan;
use super::steps::{Ask, Step, first_wrong};
use super::{FILE, empty_folder};
use disk::DeviceError;
use disk_fs::FsShelf;
use log::sink::{Lines, Memory};
use log::{Level, Logged};
use std::alloc::Global;
use std::io::ErrorKind;
use std::test::Fail;
use watched_files::{Call, Watched};

const FOLDER: &str = "disk_fs_telling";

// A write that fails twice is told once, and again behind one that went well. A sync is told once, also where one of a file without
// news goes well between; what fails for it isn't told. A read is told once, also where another one goes well between.
const FAILURES: [Step; 24] = [
    Step::Works(&[FILE], Ask::Write(0, b"abc")),
    Step::Order(Call::Write, 1, ErrorKind::StorageFull),
    Step::Fails(&[FILE], Ask::Write(3, b"d")),
    Step::Order(Call::Write, 1, ErrorKind::StorageFull),
    Step::Fails(&[FILE], Ask::Write(3, b"d")),
    Step::Works(&[FILE], Ask::Write(3, b"d")),
    Step::Order(Call::Write, 1, ErrorKind::StorageFull),
    Step::Fails(&[FILE], Ask::Write(4, b"e")),
    Step::Order(Call::SyncFile, 1, ErrorKind::QuotaExceeded),
    Step::Fails(&[FILE], Ask::Sync),
    Step::HasGivenUp,
    Step::Works(&[FILE], Ask::Sync),
    Step::Works(&[FILE], Ask::Write(4, b"e")),
    Step::Order(Call::SyncFile, 1, ErrorKind::QuotaExceeded),
    Step::Fails(&[FILE], Ask::Sync),
    Step::Works(&[FILE], Ask::Sync),
    Step::Order(Call::Read, 1, ErrorKind::TimedOut),
    Step::Fails(&[FILE], Ask::Read(1, 3, *b"bcd------")),
    Step::Works(&[FILE], Ask::Read(2, 3, *b"cde------")),
    Step::Order(Call::Read, 1, ErrorKind::TimedOut),
    Step::Fails(&[FILE], Ask::Read(1, 3, *b"bcd------")),
    Step::Works(&[FILE], Ask::Read(1, 4, *b"bcde-----")),
    Step::Order(Call::Read, 1, ErrorKind::TimedOut),
    Step::Fails(&[FILE], Ask::Read(1, 3, *b"bcd------")),
];

const TOLD: [&str; 5] = [
    "[WARN  disk_fs::shelf] u00003-e00000012.dat: a write failed: no storage space",
    "[WARN  disk_fs::shelf] u00003-e00000012.dat: a write failed: no storage space",
    "[WARN  disk_fs::shelf] u00003-e00000012.dat: a sync failed: quota exceeded",
    "[WARN  disk_fs::shelf] u00003-e00000012.dat: a read at 1 failed: timed out",
    "[WARN  disk_fs::shelf] u00003-e00000012.dat: a read at 1 failed: timed out",
];

// The first step that goes otherwise, and what the log told.
fn follow(rt: HostRuntime) -> Result<(Option<usize>, Lines), DeviceError> {
    let alloc = rt.alloc();
    let Ok(path) = String::from_str(alloc, FOLDER) else {
        return Err(DeviceError);
    };
    let logged = Logged::new(rt, Level::Info, Memory::new(alloc));
    let wrong = wrong_as_logged(&logged, alloc, path)?;
    let (_, memory) = logged.into_parts();
    Ok((wrong, memory.into_lines()))
}

// The first step that goes otherwise, with a new shelf that logs so.
fn wrong_as_logged(
    logged: &Logged<HostRuntime, Memory>,
    alloc: Global,
    path: String,
) -> Result<Option<usize>, DeviceError> {
    let plan = Plan::new();
    let watched = Watched {
        rt: logged,
        watch: &plan,
    };
    let mut shelf = FsShelf::new(watched, alloc, path);
    first_wrong(logged, &plan, &mut shelf, &FAILURES)
}

// Whether these are the lines.
fn are_told(lines: &[String], wanted: &[&str]) -> bool {
    lines.len() == wanted.len()
        && lines
            .iter()
            .zip(wanted.iter())
            .all(|(line, text)| line.as_str() == *text)
}

#[test]
fn a_failure_is_told_once_until_its_call_goes_well(rt: HostRuntime) -> Result<(), Fail> {
    empty_folder(&rt, FOLDER)?;
    let (wrong, lines) = follow(rt)?;
    if let Some(step) = wrong {
        return Err(Fail::new(format_args!("step {step}")));
    }
    // Where memory was refused a line is missing, or stands twice.
    if !are_told(lines.as_slice(), &TOLD) {
        return Err(Fail::from(DeviceError));
    }
    Ok(())
}
