//! Devices that read or write a few bytes at a time, and that fail: those over memory and those over
//! readers and writers of std.

mod memory;
mod standard;

use m4_state::device::{ByteSource, DeviceFault};
use std::alloc::AllocError;

// Takes all of a reader, and returns whether a failure followed its bytes.
fn take_all<R: ByteSource>(reader: &mut R, bytes: &mut Vec<u8>) -> Result<bool, AllocError> {
    let mut block = [0u8; 16384];
    for _ in 0..u64::MAX {
        match reader.take(&mut block) {
            Ok(0) => return Ok(false),
            Ok(n) => bytes.extend_from_slice(&block[..n])?,
            Err(DeviceFault) => return Ok(true),
        }
    }
    Ok(false)
}
