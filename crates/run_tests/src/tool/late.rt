//! A late file: over a world in memory, and over the files of a process. The expected files were written by hand.

ghost use Rattle.std.specs.Prelude.{◌≡◌};

use super::following::add_made;
use crate::runs::shows::shows;
use m4_state::bytes::Bytes;
use m4_state::transfer::write_all;
use m4_tool::late::{LateFile, LateStart};
use m4_tool::mem_world::MemWorld;
use m4_tool::std_world::StdFiles;
use m4_tool::world::World;
use part_tests::report::Report;
use std::alloc::Global;
use std::fs;
use std::marker::Brand;
use std::process::Abort;
use std::rt::Files;
use std::test::Fail;

// The pieces that are written, and the file that is made.
static ROWS: [(&[&[u8]], &str); 4] = [
    (&[], "|nothing is made"),
    (&[b""], "|nothing is made"),
    (&[b"a"], "|late: a"),
    (&[b"", b"ab", b"", b"c"], "|late: abc"),
];

// Writes the pieces to a late file of this name, and returns the world after that.
fn after_pieces<W: World>(world: W, name: Bytes, pieces: &[&[u8]]) -> W {
    after_late::<W, Brand>(world, name, pieces)
}

// Does so for a late file with this start.
fn after_late<W: World, K: LateStart>(world: W, name: Bytes, pieces: &[&[u8]]) -> W
    requires before { W.files world ≡ K.before }
    requires kept { W.kept world ≡ K.kept }
    requires name { name ≡ K.name }
    requires failures { W.failures world ≡ K.failures }
{
    let mut late: LateFile<W, K> = LateFile::over(world, name);
    for piece in pieces {
        let _written = write_all(&mut late, piece);
    }
    let mut world = late.into_world();
    let _finished = world.finish(b"late");
    world
}

#[test]
fn late_files_are_made(rt: HostRuntime) -> Result<(), Fail> {
    for &(pieces, made) in &ROWS {
        let world = MemWorld::new(rt.alloc(), &[], b"", true);
        let after = after_pieces(world, Bytes::from_slice(rt.alloc(), b"late")?, pieces);
        let mut report = Report::new(rt.alloc());
        add_made(&after, &mut report);
        shows(&rt, made, made.as_bytes(), report.text());
    }
    Ok(())
}

// A file of the process, with a name that no other program uses.
const PATH: &str = "late_file_of_a_test_of_m4r";

// Makes a late file over the files of the process. If that fails, the test ends.
fn late_of<'a, R: Files + Alloc<A = Global> + Abort>(
    rt: &'a R,
) -> LateFile<StdFiles<'a, R>, Brand> {
    match LateFile::new(rt, PATH) {
        Ok(late) => late,
        Err(_fault) => panic!(rt; "no late file"),
    }
}

// Returns whether the file of the process has this text.
fn has_text(rt: &(impl Files + Alloc), text: &str) -> bool {
    match fs::read_to_string(rt, PATH) {
        Ok(found) => found.as_str() == text,
        Err(_fault) => false,
    }
}

// Makes a late file and drops it, with no byte written.
fn drop_late<R: Files + Alloc<A = Global> + Abort>(rt: &R) {
    let _dropped = late_of(rt);
}

// Writes these bytes to a late file. Returns whether they were written and flushed.
fn are_written<W: World>(late: LateFile<W, Brand>, bytes: &[u8]) -> bool {
    let mut late = late;
    let written = write_all(&mut late, bytes).is_ok();
    let finished = late.into_world().finish(PATH.as_bytes()).is_ok();
    written && finished
}

// Writes these bytes to a late file of the process, and returns the same.
fn write_late<R: Files + Alloc<A = Global> + Abort>(rt: &R, bytes: &[u8]) -> bool {
    are_written(late_of(rt), bytes)
}

#[test]
fn old_file_stays_until_a_byte_is_written(rt: HostRuntime) {
    let written = fs::write(&rt, PATH, "old").is_ok();
    assert!(rt; written, "the file of the test can't be written");
    drop_late(&rt);
    let unchanged = has_text(&rt, "old");
    let rewritten = write_late(&rt, b"new") && has_text(&rt, "new");
    let removed = fs::remove_file(&rt, PATH).is_ok();
    assert!(rt; unchanged, "a late file with no byte changed the old one");
    assert!(rt; rewritten, "the bytes of a late file are not in it");
    assert!(rt; removed, "the file of the test can't be removed");
}
