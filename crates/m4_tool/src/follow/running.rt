//! The run of a line: over its sources, from its start, to the file to which it freezes.

ghost use Rattle.std.specs.Prelude.{◌≡◌, [], List, ℕ, Option, IfOk, true, false, map, unwrap_or};
ghost use Rattle.std.specs.Prelude.{option_map, string_bytes};
ghost use Rattle.m4_state.specs.Device.{Script};
ghost use Rattle.m4_engine.specs.File.{Source as Said};
ghost use Rattle.m4_engine.specs.RunSources.{DescribesFrozen};
ghost use Rattle.m4_engine.specs.Run.{run as defined};
ghost use Rattle.m4_engine.specs.Start.{start_of};
ghost use Rattle.m4_engine.specs.Carries.{frozen_state};
ghost use Rattle.m4_state.specs.State.{IsSized};
ghost use Rattle.m4_engine.specs.Writers.{change};
ghost use Rattle.m4_tool.specs.World.{Files};
ghost use Rattle.m4_tool.specs.Line.{freeze_name, request_of, words_of};
ghost use Rattle.m4_tool.specs.FailureCounts.{counts_of};
ghost use Rattle.m4_tool.specs.Known.{AnyFails, ExtendFiles, Knows};
ghost use Rattle.m4_tool.specs.LineEnd.{seen};
ghost use Rattle.m4_tool.specs.LineRun.{RanBy, RanCounts, named_in, named_of};
ghost use Rattle.m4_tool.specs.Unfinished.{LeavesMarked};

use super::opening::sources_of;
use crate::followed::FAILED;
use crate::late::{LateFile, LateStart};
use crate::line::Line;
use crate::world::{Shows, World};
use m4_engine::ending::{Cause, Ending};
use m4_engine::options::Options;
use m4_engine::run::run_keeping;
use m4_engine::source::Source;
use m4_state::bytes::Bytes;
use std::alloc::{AllocError, Global};
use std::marker::Brand;
use std::mem::forget;

/// How the run of a line ended, with the world after it.
#[derive(Drop)]
pub struct RunEnd<W> {
    /// How the run ended.
    pub ending: Ending,
    /// The world.
    pub world: W,
}

/// Opens the files of a line and runs over them. The run starts from this frozen file, if there is one.
pub fn run_line<W: World, O: Shows, M: Shows>(
    alloc: Global,
    line: &Line,
    frozen: &mut Option<W::Reader>,
    world: W,
    out: &mut O,
    messages: &mut M,
) -> RunEnd<W>
    ensures ran { (files : Files) (input : Script) (script : Option Script) (ss : List Said)
        → Knows W.making W.files W.input world files input → DescribesFrozen W.Reader.script frozen.old script
        → ExtendFiles files input (words_of (request_of line.now).names) ss
        → RanBy (freeze_name (request_of line.now)) (defined line.now.options script ss) result.ending
        (seen (change O.contents out.old out.new) (change M.contents messages.old messages.new)
        (change M.failures messages.old messages.new) (change W.files world result.world)) }
    ensures sized { (files : Files) (input : Script) (script : Option Script) (ss : List Said)
        → Knows W.making W.files W.input world files input → DescribesFrozen W.Reader.script frozen.old script
        → ExtendFiles files input (words_of (request_of line.now).names) ss
        → result.ending.cause ≡ Cause.Done → line.now.options.freeze ≡ true
        → IsSized (frozen_state line.now.options (start_of line.now.options.prefix script) ss) }
    ensures unfinished { LeavesMarked (freeze_name (request_of line.now)) (W.kept world) (W.kept result.world) }
    ensures read { (files : Files) (input : Script) → Knows W.making W.files W.input world files input
        → result.ending.cause ≡ Cause.Read → AnyFails files input (words_of (request_of line.now).names) }
    ensures counted { RanCounts result.ending.cause (counts_of (change O.failures out.old out.new)
        (change M.failures messages.old messages.new) (change W.failures world result.world)) }
{
    let mut world = world;
    let Ok(mut sources) = sources_of(alloc, &mut world, line.files.as_slice()) else {
        return without_memory(world);
    };
    let Ok(name) = name_of(alloc, &line.freeze) else {
        return without_memory(world);
    };
    run_late::<W, Brand, O, M>(
        alloc,
        line.options,
        frozen,
        &mut sources,
        out,
        messages,
        world,
        name,
    )
}

/// Returns the name of the file to which a line freezes; it is empty if there is none.
fn name_of(alloc: Global, file: &Option<String>) -> Result<Bytes, AllocError>
    ensures { IfOk result (λ name. name ≡ unwrap_or (option_map string_bytes file.now) []) }
{
    match file {
        Some(name) => Bytes::from_slice(alloc, name.as_str().as_bytes()),
        None => Bytes::from_slice(alloc, b""),
    }
}

/// Returns the end of a run that was not begun, because an allocation failed.
fn without_memory<W>(world: W) -> RunEnd<W>
    ensures ending { result.ending ≡ record { status = 1; cause = Cause.OutOfMemory; wrapped = false } }
    ensures world { result.world ≡ world }
{
    RunEnd {
        ending: Ending {
            status: FAILED,
            cause: Cause::OutOfMemory,
            wrapped: false,
        },
        world,
    }
}

/// Runs over the sources. The frozen text goes to a file of this name, which is created when its first
/// byte is written.
fn run_late<W: World, K: LateStart, O: Shows, M: Shows>(
    alloc: Global,
    options: Options,
    frozen: &mut Option<W::Reader>,
    sources: &mut [Source<W::Reader>],
    out: &mut O,
    messages: &mut M,
    world: W,
    name: Bytes,
) -> RunEnd<W>
    requires before { W.files world ≡ K.before }
    requires kept { W.kept world ≡ K.kept }
    requires name { name ≡ K.name }
    requires failures { W.failures world ≡ K.failures }
    ensures ran { (files : Files) (input : Script) (names : List (List ℕ)) (script : Option Script) (ss : List Said)
        → map (named_of W.Reader.script) sources.old ≡ named_in files input names
        → DescribesFrozen W.Reader.script frozen.old script → ExtendFiles files input names ss
        → RanBy K.name (defined options script ss) result.ending
        (seen (change O.contents out.old out.new) (change M.contents messages.old messages.new)
        (change M.failures messages.old messages.new) (change W.files world result.world)) }
    ensures sized { (files : Files) (input : Script) (names : List (List ℕ)) (script : Option Script) (ss : List Said)
        → map (named_of W.Reader.script) sources.old ≡ named_in files input names
        → DescribesFrozen W.Reader.script frozen.old script → ExtendFiles files input names ss
        → result.ending.cause ≡ Cause.Done → options.freeze ≡ true
        → IsSized (frozen_state options (start_of options.prefix script) ss) }
    ensures unfinished { LeavesMarked K.name (W.kept world) (W.kept result.world) }
    ensures read { (files : Files) (input : Script) (names : List (List ℕ))
        → map (named_of W.Reader.script) sources.old ≡ named_in files input names
        → result.ending.cause ≡ Cause.Read → AnyFails files input names }
    ensures counted { RanCounts result.ending.cause (counts_of (change O.failures out.old out.new)
        (change M.failures messages.old messages.new) (change W.failures world result.world)) }
{
    let mut late: LateFile<W, K> = LateFile::over(world, name);
    let (ending, session) = run_keeping(alloc, options, frozen, sources, out, messages, &mut late);
    // The program ends after this, so the definitions are not freed one by one.
    forget(session);
    RunEnd {
        ending,
        world: late.into_world(),
    }
}
