// The standard descriptors, which no file that is opened may take.
use std::fs::{File, OpenOptions};
use std::io;
use std::os::fd::AsRawFd;
use std::rt::Files;

/// The device that gives nothing and takes everything.
pub(crate) const NULL: &str = "/dev/null";

/// Standard error's, the last of the three.
const LAST: i32 = 2;

/// The null device at each of the descriptors 0, 1 and 2 with which the program was started closed. The system gives a file that is
/// opened the least free number, so without it the first file of a folder would be standard output, and lines be printed into it.
/// It lasts as long as this value.
#[derive(Drop)]
pub(crate) struct StandIns {
    _held: [Option<File>; 3],
}

impl StandIns {
    /// Opens the null device until its number is none of the three.
    pub(crate) fn open<R: Files<File = File>>(rt: &R) -> io::Result<StandIns> {
        let mut held = [None, None, None];
        for place in &mut held {
            let null = OpenOptions::new().read(true).write(true).open(rt, NULL)?;
            if null.as_raw_fd() > LAST {
                break;
            }
            *place = Some(null);
        }
        Ok(StandIns { _held: held })
    }
}
