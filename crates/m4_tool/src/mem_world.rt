//! A world in memory: given files, a given standard input, and one file that is made. Contracts know
//! all of it.

ghost use Rattle.std.specs.Prelude.{◌≡◌, ◌<◌, ◌++◌, Option, Some, None, OnOk, OnErr, false, true, is_some, length};
ghost use Rattle.std.specs.Prelude.{option_map};
ghost use Rattle.m4_state.specs.Device.{Script};
ghost use Rattle.m4_tool.specs.Memory.{given_files, memory_files, unmarked};
ghost use Rattle.m4_frozen.specs.Unfinished.{is_marked};

use crate::given::Given;
use crate::world::{Shows, World};
use m4_state::device::{ByteSource, DeviceFault, fail};
use m4_state::memory::{MemSink, MemSource};
use std::alloc::{AllocError, Global};

/// How many bytes a reader returns for each take, at most.
const AT_MOST: usize = 4096;

/// The byte with which the made file begins until it is finished.
const MARK: u8 = 0;

/// A world of given files, a given standard input, and the file that was made. One file can be made, and none if
/// `makes` is false.
#[derive(Drop)]
pub struct MemWorld<'a> {
    alloc: Global,
    given: &'a [Given<'a>],
    input: &'a [u8],
    input_fails: bool,
    makes: bool,
    name: Vec<u8>,
    made: Option<Vec<u8>>,
    first: u8,
    failures: u64,
}

impl<'a> MemWorld<'a> {
    /// Returns a world with these files and this standard input. No file is made yet; `makes`: whether one
    /// can be.
    pub fn new(alloc: Global, given: &'a [Given<'a>], input: &'a [u8], makes: bool) -> MemWorld<'a>
        ensures files { ⟦<MemWorld<'a> as World>⟧.files result ≡ Some (given_files given.now) }
        ensures input { ⟦<MemWorld<'a> as World>⟧.input result ≡ Some (record { bytes = input.now; fails = false }) }
        ensures making { ⟦<MemWorld<'a> as World>⟧.making result ≡ false }
        ensures makes { result.makes ≡ makes }
    {
        MemWorld {
            alloc,
            given,
            input,
            input_fails: false,
            makes,
            name: Vec::new(alloc),
            made: None,
            first: MARK,
            failures: 0,
        }
    }

    /// Makes the reader of standard input fail after its bytes.
    pub fn fail_input(&mut self)
        ensures input { ⟦<MemWorld<'a> as World>⟧.input self.new
            ≡ Some (record { bytes = self.old.input.now; fails = true }) }
        ensures files { ⟦<MemWorld<'a> as World>⟧.files self.new ≡ ⟦<MemWorld<'a> as World>⟧.files self.old }
        ensures making { ⟦<MemWorld<'a> as World>⟧.making self.new ≡ ⟦<MemWorld<'a> as World>⟧.making self.old }
        ensures makes { self.new.makes ≡ self.old.makes }
        ensures failures { self.new.failures ≡ self.old.failures }
    {
        self.input_fails = true;
    }

    /// Returns the name of the file that was made; it is empty if none was.
    pub fn made_name(&self) -> &[u8]
        ensures { result.now ≡ self.now.name.items }
    {
        self.name.as_slice()
    }

    /// Returns the bytes of the file that was made, if one was. It begins with the mark until it is finished.
    pub fn made(&self) -> Option<&[u8]>
        ensures { option_map (λ bytes. bytes.now) result ≡ option_map (λ v. v.items) self.now.made }
    {
        match &self.made {
            Some(bytes) => Some(bytes.as_slice()),
            None => None,
        }
    }
}

impl<'a> World for MemWorld<'a> {
    type Reader = MemSource<'a>;

    ghost files = { λ w. Some (memory_files w.name.items
        (option_map (λ v. unmarked w.first v.items) w.made) w.given.now) };

    ghost input = { λ w. Some (record { bytes = w.input.now; fails = w.input_fails }) };

    ghost making = { λ w. is_some w.made };

    ghost kept = { λ w. Some (memory_files w.name.items (option_map (λ v. v.items) w.made) w.given.now) };

    ghost failures = { λ w. w.failures };

    fn open(&self, name: &[u8]) -> Option<MemSource<'a>> {
        found(self.given, name)
    }

    fn stdin(&mut self) -> MemSource<'a> {
        let reader = MemSource::new(self.input, AT_MOST, self.input_fails);
        self.input = &[];
        self.input_fails = false;
        reader
    }

    fn create(&mut self, name: &[u8]) -> Result<(), DeviceFault> {
        if !self.makes || self.made.is_some() {
            return fail(&mut self.failures);
        }
        let Ok(copy) = Vec::from_slice(self.alloc, name) else {
            return fail(&mut self.failures);
        };
        self.name = copy;
        self.made = Some(Vec::new(self.alloc));
        Ok(())
    }

    fn append(&mut self, name: &[u8], bytes: &[u8]) -> Result<usize, DeviceFault> {
        if self.name.as_slice() != name {
            return fail(&mut self.failures);
        }
        match &mut self.made {
            Some(made) => match add_marked(made, &mut self.first, bytes) {
                Ok(()) => Ok(bytes.len()),
                Err(_refused) => fail(&mut self.failures),
            },
            None => fail(&mut self.failures),
        }
    }

    fn finish(&mut self, _name: &[u8]) -> Result<(), DeviceFault> {
        if let Some(made) = &mut self.made {
            unmark(made, self.first);
        }
        Ok(())
    }
}

/// Adds bytes to a file that begins with the mark in place of this first byte.
fn add_marked(made: &mut Vec<u8>, first: &mut u8, bytes: &[u8]) -> Result<(), AllocError>
    requires { 0 < length bytes.now }
    ensures text { OnOk result (unmarked first.new made.new.items ≡ unmarked first.old made.old.items ++ bytes.now) }
    ensures marked { OnOk result (is_marked made.new.items ≡ true) }
    ensures made { OnErr result (made.new.items ≡ made.old.items) }
    ensures first { OnErr result (first.new ≡ first.old) }
{
    let begins = made.is_empty();
    made.extend_from_slice(bytes)?;
    if begins {
        *first = bytes[0];
    }
    unmark(made, MARK);
    Ok(())
}

/// Puts a first byte in place of the mark.
fn unmark(made: &mut Vec<u8>, first: u8)
    ensures { made.new.items ≡ unmarked first made.old.items }
{
    if !made.is_empty() {
        made[0] = first;
    }
}

/// Returns a reader of the first file of this name.
fn found<'a>(given: &'a [Given<'a>], name: &[u8]) -> Option<MemSource<'a>>
    ensures { option_map ⟦<MemSource<'a> as ByteSource>⟧.script result
        ≡ option_map Some (given_files given.now name.now) }
{
    for file in given {
        if name == file.name {
            return Some(MemSource::new(file.bytes, AT_MOST, file.fails));
        }
    }
    None
}

impl Shows for MemSink {
    ghost shown = { λ s. Some s.held };

    fn flush(&mut self) -> Result<(), DeviceFault> {
        Ok(())
    }
}
