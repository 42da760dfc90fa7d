//! The command `frames`: it reads a mesh, then answers each line behind it.

ghost use Rattle.std.specs.Prelude.{◌≡◌, ◌≤◌, IfSome};
ghost use Rattle.far_fault.specs.View.{outcome_of};
ghost use Rattle.far_words.specs.View.{frames_of_code};
ghost use Rattle.far_engine.specs.FrameLines.{CanCount, MayStream, Origin, RunsFrames, begun};
ghost use Rattle.far_engine.specs.MeshPart.{RunsBehind};
ghost use Rattle.table_answers.specs.FrameAnswers.{IsStart};

use crate::frame_lines::FrameLines;
use crate::mesh_part::{MeshPart, read_part};
use far_fault::FarFault;
use far_io::{Sink, Source};
use far_words::FramesOptions;
use ratio128::Steps;
use raw_mesh::RawMesh;
use std::alloc::Global;
use std::sync::ledger::Ledger;
use table_answers::PosedMesh;

// The mesh refined to a depth. The function drops the mesh that was read.
fn start<L: Ledger>(
    alloc: Global,
    mesh: RawMesh,
    depth: u32,
    steps: &mut Steps<L>,
) -> Result<PosedMesh, FarFault>
    requires { depth ≤ 10 }
    ensures { IsStart mesh depth result (λ posed. posed) steps.old steps.new }
{
    PosedMesh::start(alloc, &mesh, depth, steps)
}

// Answers the frame lines, if there are any.
fn answer_lines<S: Source, K: Sink, L: Ledger>(
    posed: &mut PosedMesh,
    lines: Option<FrameLines>,
    source: &mut S,
    sink: &mut K,
    steps: &mut Steps<L>,
) -> Result<(), FarFault>
    requires { IfSome lines CanCount }
    ensures { (from : Origin S.Source K.Sink) → MayStream from source.old sink.old lines posed.old steps.old
        → RunsFrames from source.new sink.new (outcome_of result) steps.new }
{
    match lines {
        Some(mut lines) => lines.answer_all(posed, source, sink, steps),
        None => Ok(()),
    }
}

// Answers the lines behind a mesh that was read.
fn answer_part<S: Source, K: Sink, L: Ledger>(
    alloc: Global,
    part: MeshPart,
    options: &FramesOptions,
    source: &mut S,
    sink: &mut K,
    steps: &mut Steps<L>,
) -> Result<(), FarFault>
    requires depth { options.now.depth ≤ 10 }
    requires counted { IfSome part.lines CanCount }
    ensures { RunsBehind S.Source K.Sink (frames_of_code options.now) part source.old source.new sink.old sink.new (outcome_of result) steps.old steps.new }
{
    let MeshPart { mesh, lines } = part;
    let mut posed = start(alloc, mesh, options.depth, steps)?;
    answer_lines(&mut posed, lines, source, sink, steps)
}

/// Runs `frames`: reads a mesh up to the line `frames`, then answers each line behind it before it reads the next. It takes no memory
/// once the mesh is refined.
pub(crate) fn run_frames<S: Source, K: Sink, L: Ledger>(
    alloc: Global,
    options: &FramesOptions,
    source: &mut S,
    sink: &mut K,
    steps: &mut Steps<L>,
) -> Result<(), FarFault>
    requires depth { options.now.depth ≤ 10 }
    requires scale { options.now.scale ≤ 18 }
    ensures { RunsFrames (begun S.Source K.Sink (frames_of_code options.now) source.old sink.old steps.old) source.new sink.new (outcome_of result) steps.new }
{
    let part = read_part(alloc, options, source)?;
    answer_part(alloc, part, options, source, sink, steps)
}
