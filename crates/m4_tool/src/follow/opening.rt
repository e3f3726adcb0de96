//! The sources of a run: the files of the line, opened in their order, and standard input.

ghost use Rattle.std.specs.Prelude.{◌≡◌, [], Some, IfOk, map, string_bytes};
ghost use Rattle.m4_state.specs.Device.{Script};
ghost use Rattle.m4_tool.specs.World.{Files};
ghost use Rattle.m4_tool.specs.Line.{input_after, words_of};
ghost use Rattle.m4_tool.specs.Known.{Knows};
ghost use Rattle.m4_tool.specs.LineRun.{named_at, named_in, named_of};

use crate::sources::{INPUT, source_name};
use crate::world::World;
use m4_engine::source::Source;
use std::alloc::{AllocError, Global};

/// Opens the files of a line, or standard input if it has none.
pub fn sources_of<W: World>(
    alloc: Global,
    world: &mut W,
    files: &[String],
) -> Result<Vec<Source<W::Reader>>, AllocError>
    ensures sources { IfOk result (λ all. (fs : Files) (input : Script)
        → Knows W.making W.files W.input world.old fs input
        → map (named_of W.Reader.script) all.items ≡ named_in fs input (words_of (map string_bytes files.now))) }
    ensures files { W.files world.new ≡ W.files world.old }
    ensures kept { W.kept world.new ≡ W.kept world.old }
    ensures failures { W.failures world.new ≡ W.failures world.old }
{
    if files.is_empty() {
        return input_alone(alloc, world);
    }
    opened_files(alloc, world, files)
}

/// Returns standard input as the only source.
fn input_alone<W: World>(alloc: Global, world: &mut W) -> Result<Vec<Source<W::Reader>>, AllocError>
    ensures sources { IfOk result (λ all. (fs : Files) (input : Script)
        → Knows W.making W.files W.input world.old fs input
        → map (named_of W.Reader.script) all.items ≡ named_in fs input (words_of [])) }
    ensures files { W.files world.new ≡ W.files world.old }
    ensures kept { W.kept world.new ≡ W.kept world.old }
    ensures failures { W.failures world.new ≡ W.failures world.old }
{
    let mut sources = Vec::new(alloc);
    let source = opened(alloc, world, INPUT)?;
    sources.push(source)?;
    Ok(sources)
}

/// Opens the files in order.
fn opened_files<W: World>(
    alloc: Global,
    world: &mut W,
    files: &[String],
) -> Result<Vec<Source<W::Reader>>, AllocError>
    ensures sources { IfOk result (λ all. (fs : Files) (input : Script)
        → Knows W.making W.files W.input world.old fs input
        → map (named_of W.Reader.script) all.items ≡ named_in fs input (map string_bytes files.now)) }
    ensures files { W.files world.new ≡ W.files world.old }
    ensures kept { W.kept world.new ≡ W.kept world.old }
    ensures failures { W.failures world.new ≡ W.failures world.old }
{
    let mut sources = Vec::new(alloc);
    for file in files {
        let source = opened(alloc, world, file.as_str())?;
        sources.push(source)?;
    }
    Ok(sources)
}

/// Opens a file of the line, or standard input; the result records whether that failed.
fn opened<W: World>(
    alloc: Global,
    world: &mut W,
    file: &str,
) -> Result<Source<W::Reader>, AllocError>
    ensures source { IfOk result (λ s. (fs : Files) (input : Script)
        → Knows W.making W.files W.input world.old fs input
        → named_of W.Reader.script s ≡ named_at fs input file.now) }
    ensures input { IfOk result (λ s. (input : Script) → W.input world.old ≡ Some input
        → W.input world.new ≡ Some (input_after input file.now)) }
    ensures making { W.making world.new ≡ W.making world.old }
    ensures files { W.files world.new ≡ W.files world.old }
    ensures kept { W.kept world.new ≡ W.kept world.old }
    ensures failures { W.failures world.new ≡ W.failures world.old }
{
    let name = source_name(alloc, file)?;
    if file == INPUT {
        let reader = world.stdin();
        return Ok(Source::Opened { name, reader });
    }
    match world.open(file.as_bytes()) {
        Some(reader) => Ok(Source::Opened { name, reader }),
        None => Ok(Source::Unopened { name }),
    }
}
