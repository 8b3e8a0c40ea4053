// A failure at each call of the system.
use crate::tests::empty_folder;
use crate::tests::plan::Plan;
use disk::{DeviceError, FileId, Shelf, served};
use disk_fs::FsShelf;
use log::sink::Discard;
use log::{LevelFilter, Logged};
use std::io::ErrorKind;
use std::test::Fail;
use watched_files::Watched;

const FOLDER: &str = "disk_fs_each";

// Segment `number` of the first topic.
fn segment(number: u64) -> FileId {
    FileId::Segment {
        topic: served(0),
        number,
    }
}

// Nine files, written, cut, synced and read. How many bytes were read.
fn work(shelf: &mut impl Shelf) -> Result<usize, DeviceError> {
    for number in 0..9 {
        shelf.write_at(segment(number), 0, b"abcd")?;
    }
    let mut buffer = [0; 9];
    let mut count = 0usize;
    for number in 0..9 {
        let file = segment(number);
        shelf.cut(file, number)?;
        shelf.sync(file)?;
        count = count.wrapping_add(shelf.length(file)? as usize);
        count = count.wrapping_add(shelf.read(file, 0, &mut buffer)?);
    }
    Ok(count)
}

// Whether the work makes fewer than k calls of the system, and what it answers where the kth one fails.
fn answer_at(rt: &HostRuntime, k: u64) -> Result<(bool, Result<usize, DeviceError>), DeviceError> {
    let Ok(path) = String::from_str(rt.alloc(), FOLDER) else {
        return Err(DeviceError);
    };
    let plan = Plan::new();
    plan.fail(None, k, ErrorKind::Other);
    let watched = Watched { rt, watch: &plan };
    let silent = Logged::new(watched, LevelFilter::Off, Discard);
    let mut shelf = FsShelf::new(silent, rt.alloc(), path);
    let answer = work(&mut shelf);
    Ok((plan.is_armed(), answer))
}

#[test]
fn each_call_that_fails_is_answered(rt: HostRuntime) -> Result<(), Fail> {
    for k in 1..1000 {
        empty_folder(&rt, FOLDER)?;
        let (is_over, answer) = answer_at(&rt, k)?;
        if is_over {
            assert_eq!(rt; answer?, 52);
            assert!(rt; k > 60, "all calls were met: {k}");
            return Ok(());
        }
        assert_eq!(rt; answer, Err(DeviceError), "call {k}");
    }
    assert!(rt; false, "it never ends");
    Ok(())
}
