//! Files that are refused before the reader's end.

use super::{BLOCK, after_a_comment, describe};
use crate::report::Report;
use crate::shows::shows;
use m4_frozen::reading::read_frozen;
use m4_state::memory::MemSource;
use std::alloc::{AllocError, Global};

// A row's name, the length of a comment before `V1` and a wrong letter, and the result for a file of
// three blocks that begins so.
static BLOCKED: [(&str, usize, &[u8]); 2] = rows! {
    "a fault at the front of the first block", 1 => b"F5 UnknownDirective at 4 within the first block";
    "a fault near the end of the first block", 16000 => b"F5 UnknownDirective at 16003 within the first block";
};

// Returns a file of three blocks with a wrong letter in the first one.
fn three_blocks(alloc: Global, before: usize) -> Result<Vec<u8>, AllocError> {
    let mut file = after_a_comment(alloc, before, b"V1\nX\n")?;
    file.resize(3 * BLOCK, b'#')?;
    Ok(file)
}

// Reports how reading such a file ends, and whether more than the first block was read.
fn refused_early(alloc: Global, before: usize) -> Result<Vec<u8>, AllocError> {
    let file = three_blocks(alloc, before)?;
    let mut report = Report::new(alloc);
    let mut reader = MemSource::new(&file, 4096, false);
    match read_frozen(alloc, &mut reader) {
        Ok(_loaded) => report.add(b"loaded"),
        Err(fault) => describe(alloc, fault, &mut report),
    }
    if reader.taken() <= BLOCK {
        report.add(b" within the first block");
    } else {
        report.counted(b" after ", reader.taken());
    }
    report.text()
}

#[test]
fn a_refused_file_is_not_read_to_its_end(rt: HostRuntime) {
    for &(name, before, want) in &BLOCKED {
        shows(&rt, name, want, refused_early(rt.alloc(), before));
    }
}
