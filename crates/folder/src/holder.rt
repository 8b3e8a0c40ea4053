// Which process holds a folder.
use log::{Log, error};
use std::fs::{File, Metadata};
use std::os::unix::fs::MetadataExt;
use std::rt::Files;
use std::{fs, io};

/// Where Linux lists the locks of files, a line each.
const LOCKS: &str = "/proc/locks";

/// Says in the log that another process holds the folder whose lock file this is, and which one, where the system tells that.
pub(crate) fn tell_holder<R: AllocGlobal + Log + Files>(rt: &R, lock: &File) {
    match holder_of(rt, lock) {
        Ok(Some(process)) => error!(rt; "process {process} holds the folder"),
        Ok(None) | Err(_) => error!(rt; "another process holds the folder"),
    }
}

fn holder_of<R: AllocGlobal + Files>(rt: &R, lock: &File) -> io::Result<Option<u32>> {
    let of_file = place_of(&lock.metadata()?);
    let locks = fs::read_to_string(rt, LOCKS)?;
    Ok(
        locks
            .as_str()
            .lines()
            .find_map(|line| process_in(line, of_file)),
    )
}

/// The numbers by which a list of locks names a file: of its device, and its own there.
type Place = (u64, u64, u64);

fn place_of(metadata: &Metadata) -> Place {
    let device = metadata.dev();
    let major = (device >> 8 & 0xfff) | (device >> 32 & 0xffff_f000);
    let minor = (device & 0xff) | (device >> 12 & 0xffff_ff00);
    (major, minor, metadata.ino())
}

// The process of a line such as `1: FLOCK  ADVISORY  WRITE 2107 08:11:1835083 0 EOF`, where it speaks of this file.
fn process_in(line: &str, of_file: Place) -> Option<u32> {
    let mut words = line.split_whitespace().skip(1);
    if words.next()? != "FLOCK" {
        return None;
    }
    let process = words.nth(2)?;
    if place_in(words.next()?)? != of_file {
        return None;
    }
    process.parse().ok()
}

// The file of a word such as `08:11:1835083`, whose first two numbers are in hex.
fn place_in(word: &str) -> Option<Place> {
    let mut parts = word.split(':');
    let major = u64::from_str_radix(parts.next()?, 16).ok()?;
    let minor = u64::from_str_radix(parts.next()?, 16).ok()?;
    let inode = parts.next()?.parse().ok()?;
    Some((major, minor, inode))
}
