//! A file with each builtin of GNU m4 under its name, as it freezes its first state: cut at each byte, and written
//! again. Nothing is loaded of a file that ends within a directive. Manual: "Frozen file format".

use super::{BLOCKS, ROOM, again, describe, refused};
use crate::names_of_m4::{CANONICAL, FILE};
use crate::report::{Report, joined};
use crate::shows::{Way, agrees};
use m4_frozen::fault::{FrozenFault, FrozenKind};
use std::alloc::{AllocError, Global};

// Where the file may be cut: after the version and each directive, and anywhere in the last comment.
static LOADS: [usize; 60] = [
    7, 15, 23, 45, 67, 97, 117, 141, 171, 199, 223, 247, 261, 279, 293, 311, 329, 341, 361, 383,
    403, 417, 435, 451, 469, 489, 503, 519, 535, 547, 565, 583, 605, 625, 647, 665, 685, 703, 719,
    741, 759, 777, 795, 817, 837, 859, 881, 903, 916, 930, 931, 932, 933, 934, 935, 936, 937, 938,
    939, 940,
];

// Returns the expected report on the first bytes of the file.
fn beginning(alloc: Global, len: usize) -> Result<Vec<u8>, AllocError> {
    let mut report = Report::new(alloc);
    let kind = if len < 5 {
        FrozenKind::NoVersion
    } else {
        FrozenKind::PrematureEnd
    };
    if LOADS.contains(&len) {
        report.add(b"loaded");
    } else {
        let fault = FrozenFault {
            kind,
            offset: len as u64,
        };
        describe(alloc, fault, &mut report);
    }
    report.text()
}

#[test]
fn a_file_of_each_name_is_cut_at_each_byte(rt: HostRuntime) {
    for len in 0..=FILE.len() {
        for &block in &BLOCKS {
            let got = refused(rt.alloc(), FILE.as_bytes().split_at(len).0, block, false);
            let want = beginning(rt.alloc(), len);
            agrees(&rt, "a file of each name", Way::Cut(block, len), want, got);
        }
    }
}

#[test]
fn a_file_of_each_name_is_written_again(rt: HostRuntime) {
    for file in [FILE, CANONICAL] {
        for &block in &BLOCKS {
            let want = joined(rt.alloc(), &[CANONICAL.as_bytes(), b"; written\n"]);
            let got = again(rt.alloc(), file.as_bytes(), block, ROOM);
            agrees(&rt, "a file of each name", Way::By(block), want, got);
        }
    }
}
