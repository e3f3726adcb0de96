//! The three streams that a process is started with. One that was closed is occupied before any file is opened, so
//! that no file gets its number: what is written to a closed standard output must not go into the frozen file.

use std::fs::{Files, OpenOptions};
use std::os::fd::{AsRawFd, IntoRawFd, RawFd};

/// A device that is always full. It is opened for writing, so that it refuses to be read as well.
const FULL: &str = "/dev/full";

/// The least number that is not one of the three streams.
const FIRST_FREE: RawFd = 3;

/// Opens a device that refuses each read and each write in place of each of the three streams that is closed. Returns
/// one more file, which is none of the three; `None` if the device can't be opened: then a closed stream may stay so.
pub fn occupy_closed<R: Files>(rt: &R) -> Option<<R as Files>::File>
where
    <R as Files>::File: AsRawFd + IntoRawFd,
{
    // A file gets the least number that is free: three at most are those of the streams.
    for _ in 0..=FIRST_FREE {
        let Ok(file) = OpenOptions::new().write(true).open(rt, FULL) else {
            return None;
        };
        if file.as_raw_fd() >= FIRST_FREE {
            return Some(file);
        }
        let _kept_open = file.into_raw_fd();
    }
    None
}
