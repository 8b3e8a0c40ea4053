// What is asked of a shelf is data, and one loop asks it, since each call that stands in a test is proved there anew.
mod failures;
mod files;
mod open_files;
mod plan;
mod steps;
mod sweeps;
mod telling;

use disk::{CATALOG, DeviceError, FileId, Shelf, served};
use disk_fs::FsShelf;
use log::sink::Discard;
use log::{LevelFilter, Logged};
use plan::Plan;
use std::alloc::Global;
use std::marker::Send;
use std::rt::Files;
use std::test::Fail;
use std::{fs, io};
use steps::{Step, first_wrong};
use watched_files::Watched;

// The file of a number, of which 0 is the catalog's.
fn file_of(number: u64) -> FileId {
    match number {
        0 => CATALOG,
        _ => FileId::Segment {
            topic: served(3),
            number,
        },
    }
}

const FILE: u64 = 12;

const OTHER: u64 = 0;

// Makes the folder anew, without files.
fn empty_folder(rt: &(impl Files + AllocGlobal), folder: &str) -> io::Result<()> {
    if fs::exists(rt, folder)? {
        fs::remove_dir_all(rt, folder)?;
    }
    fs::create_dir(rt, folder)
}

// What reads give of the file.
fn contents<S: Shelf>(alloc: Global, shelf: &mut S, file: FileId) -> Result<Vec<u8>, DeviceError> {
    let len = shelf.length(file)?;
    let Ok(mut bytes) = vec![in alloc; 0u8; len as usize] else {
        return Err(DeviceError);
    };
    let count = shelf.read(file, 0, &mut bytes)?;
    bytes.truncate(count);
    Ok(bytes)
}

fn is_sent<S: Send>(shelf: S) -> S {
    shelf
}

// The first step that goes otherwise, with a new shelf over the runtime's own files.
fn wrong_over_files(
    rt: &HostRuntime,
    folder: &str,
    steps: &[Step],
) -> Result<Option<usize>, DeviceError> {
    let Ok(path) = String::from_str(rt.alloc(), folder) else {
        return Err(DeviceError);
    };
    let mut shelf = is_sent(FsShelf::new(rt, rt.alloc(), path));
    first_wrong(rt, &Plan::new(), &mut shelf, steps)
}

// Takes the steps so.
fn follow_over_files(rt: &HostRuntime, folder: &str, steps: &[Step]) -> Result<(), Fail> {
    match wrong_over_files(rt, folder, steps)? {
        None => Ok(()),
        Some(step) => Err(Fail::new(format_args!("step {step}"))),
    }
}

// The same, in a folder without files.
fn follow_in_a_new_one(rt: &HostRuntime, folder: &str, steps: &[Step]) -> Result<(), Fail> {
    empty_folder(rt, folder)?;
    follow_over_files(rt, folder, steps)
}

// The first step that goes otherwise, with a new shelf whose calls of the system go by the plan.
fn wrong_by_plan(
    rt: &HostRuntime,
    plan: &Plan,
    folder: &str,
    steps: &[Step],
) -> Result<Option<usize>, DeviceError> {
    let Ok(path) = String::from_str(rt.alloc(), folder) else {
        return Err(DeviceError);
    };
    let watched = Watched { rt, watch: plan };
    let silent = Logged::new(watched, LevelFilter::Off, Discard);
    let mut shelf = FsShelf::new(silent, rt.alloc(), path);
    first_wrong(rt, plan, &mut shelf, steps)
}

// Takes lists of steps, each with a shelf of its own, by one plan, in a folder without files.
fn follow_by_plan(rt: &HostRuntime, folder: &str, lists: &[&[Step]]) -> Result<(), Fail> {
    empty_folder(rt, folder)?;
    let plan = Plan::new();
    for index in 0..lists.len() {
        if let Some(step) = wrong_by_plan(rt, &plan, folder, lists[index])? {
            return Err(Fail::new(format_args!("step {step} of list {index}")));
        }
    }
    Ok(())
}
