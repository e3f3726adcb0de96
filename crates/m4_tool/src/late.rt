//! The file to which a run freezes. It is created when its first byte is written.
//!
//! The file is in a world: one of the files of a process, or of any other. A contract that knows the files follows them
//! by a type parameter for the start of the late file.
//! Manual: "Fast loading of frozen state".

ghost use Rattle.std.specs.Prelude.{◌≡◌, ◌<◌, ℕ, List, [], Option, Some, None, false, true, IfOk, OnOk, OnErr};
ghost use Rattle.std.specs.Option.{ForSome};
ghost use Rattle.std.proofs.Props.{props};
ghost use Rattle.m4_state.specs.Device.{count_after};
ghost use Rattle.m4_tool.specs.World.{Files};
ghost use Rattle.m4_tool.specs.FailureCounts.{Rose};
ghost use Rattle.m4_tool.specs.Late.{after_writing, begun_in, is_tried, text_of, written};
ghost use Rattle.m4_frozen.specs.Unfinished.{is_marked};
ghost use Rattle.m4_tool.specs.Unfinished.{HasMarked, LeavesMarked};

use crate::std_world::StdFiles;
use crate::world::World;
use m4_state::bytes::Bytes;
use m4_state::device::{ByteSink, DeviceFault, fail};
use std::alloc::Global;
use std::io;
use std::marker::{Brand, PhantomData};
use std::rt::Files as RuntimeFiles;

/// The start of a late file, for contracts: its name, and the world's files and count of failures before it.
pub trait LateStart {
    /// The files before it; none if they are not known.
    ghost before: { Option Files };

    /// The same, as another program finds them.
    ghost kept: { Option Files };

    /// Its name, if the files are known.
    ghost name: { List ℕ };

    /// The world's count of failures before it.
    ghost failures: { ℕ };
}

/// The start of a file of which contracts know nothing. A caller that knows more picks it.
impl LateStart for Brand {
    ghost before = { None };

    ghost kept = { None };

    ghost name = { [] };

    ghost failures = { 0 };
}

/// A sink over a file that is created when its first byte is written. Until then a file of that name
/// stays as it is: a run that writes nothing leaves an old file unchanged, and the run may read it.
#[derive(Drop)]
pub struct LateFile<W: World, K: LateStart> {
    world: W,
    name: Bytes,
    created: bool,
    failures: u64,
    of: PhantomData<K>,
    ghost named: { ForSome K.before (λ _. name ≡ K.name) },
    ghost agrees: { W.files world
        ≡ after_writing created K.name (written created K.name (W.files world)) K.before } by { Prim.hlevel props },
    ghost kept_named: { ForSome K.kept (λ _. name ≡ K.name) },
    ghost keeps: { W.kept world
        ≡ after_writing created K.name (written created K.name (W.kept world)) K.kept } by { Prim.hlevel props },
    ghost marked: { is_marked (text_of (written created K.name (W.kept world))) ≡ true },
    ghost tried: { is_tried created failures (written created K.name (W.files world)) ≡ true },
    ghost unfailed: { failures ≡ 0 → W.failures world ≡ K.failures },
    ghost failed: { 0 < failures → Rose K.failures (W.failures world) },
}

impl<'a, R: RuntimeFiles + Alloc<A = Global>> LateFile<StdFiles<'a, R>, Brand> {
    /// Returns a sink over the file of this path, which is not created yet. Its bytes are written in blocks: `finish`
    /// of the world that `into_world` returns writes the last one. Allocates a block and a copy of the path.
    pub fn new(rt: &'a R, path: &str) -> io::Result<LateFile<StdFiles<'a, R>, Brand>>
        ensures created { IfOk result (λ late. late.created ≡ false) }
        ensures failures { IfOk result (λ late. late.failures ≡ 0) }
    {
        let world = StdFiles::of_files(rt)?;
        let name = Bytes::from_slice(rt.alloc(), path.as_bytes())?;
        Ok(LateFile::over(world, name))
    }
}

impl<W: World, K: LateStart> LateFile<W, K> {
    /// Returns a sink over the file of this name in a world, which is not created yet. `K` is its start: a generic
    /// caller passes it on, and the caller of that one picks it by `Brand`.
    pub fn over(world: W, name: Bytes) -> LateFile<W, K>
        requires before { W.files world ≡ K.before }
        requires name { ForSome K.before (λ _. name ≡ K.name) }
        requires kept { W.kept world ≡ K.kept }
        requires kept_name { ForSome K.kept (λ _. name ≡ K.name) }
        requires failures { W.failures world ≡ K.failures }
        ensures created { result.created ≡ false }
        ensures world { result.world ≡ world }
        ensures failures { result.failures ≡ 0 }
    {
        LateFile {
            world,
            name,
            created: false,
            failures: 0,
            of: PhantomData,
        }
    }

    /// Returns the world, with the file if one was created.
    pub fn into_world(self) -> W
        ensures world { result ≡ self.world }
        ensures files { W.files result ≡ after_writing self.created K.name
            (written self.created K.name (W.files self.world)) K.before }
        ensures marked { LeavesMarked K.name K.kept (W.kept result) }
        ensures unfailed { self.failures ≡ 0 → W.failures result ≡ K.failures }
        ensures failed { 0 < self.failures → Rose K.failures (W.failures result) }
        ensures tried { is_tried self.created self.failures (written self.created K.name (W.files self.world)) ≡ true }
    {
        let LateFile {
            world,
            name: _,
            created: _,
            failures: _,
            of: _,
        } = self;
        world
    }
}

impl<W: World, K: LateStart> ByteSink for LateFile<W, K> {
    ghost contents = { λ s. written s.created K.name (W.files s.world) };

    ghost failures = { λ s. s.failures };

    fn put(&mut self, bytes: &[u8]) -> Result<usize, DeviceFault> {
        if create_once(&mut self.world, self.name.as_slice(), self.created).is_err() {
            return fail(&mut self.failures);
        }
        self.created = true;
        match self.world.append(self.name.as_slice(), bytes) {
            Ok(n) => Ok(n),
            Err(DeviceFault) => fail(&mut self.failures),
        }
    }
}

/// Creates the file, unless it was created before.
fn create_once<W: World>(world: &mut W, name: &[u8], created: bool) -> Result<(), DeviceFault>
    ensures begun { OnOk result (W.files world.new ≡ begun_in created name.now (W.files world.old)) }
    ensures unchanged { OnErr result (W.files world.new ≡ W.files world.old) }
    ensures marked { created ≡ false → OnOk result (HasMarked name.now (W.kept world.old) (W.kept world.new)) }
    ensures still_marked { created ≡ true → OnOk result (W.kept world.new ≡ W.kept world.old) }
    ensures kept { OnErr result (W.kept world.new ≡ W.kept world.old) }
    ensures counted { W.failures world.new ≡ count_after result (W.failures world.old) }
{
    if !created {
        world.create(name)?;
    }
    Ok(())
}
