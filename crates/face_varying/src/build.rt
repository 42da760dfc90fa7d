//! Level 0 of the cut mesh.

ghost use Rattle.std.specs.Prelude.{◌≡◌, ◌+◌, ◌≤◌, true, length, map, replicate, IfOk};
ghost use Rattle.std.specs.List.{range_with_len};
ghost use Rattle.subdiv_model.specs.Cut.{channel_points, cut_polygons, cut_level, stays_sharp};
ghost use Rattle.face_varying.specs.Corners.{apart_marks, corner_numbers};
ghost use Rattle.face_varying.specs.Cut.{IsCuttable};
ghost use Rattle.face_varying.specs.View.{mode_of};

use crate::build_faces::{add_faces, builder_of_points};
use crate::build_points::add_points;
use crate::build_sides::add_sides;
use crate::kept::kept_points;
use crate::mode::SeamMode;
use level_topology::Level;
use ratio128::{Memory, Steps};
use raw_mesh::RawMesh;
use std::alloc::Global;
use std::sync::ledger::Ledger;

// Returns level 0 of the cut mesh. It needs the edges whose faces are apart, the channel point of each corner, the vertex of
// each point, and the points that stay sharp. Each face is one step. Only the contract uses `raw` and `mode`.
fn cut_level<L: Ledger>(
    alloc: Global,
    raw: &RawMesh,
    level: &Level,
    apart: &[bool],
    numbers: &[u32],
    vertices: &[u32],
    kept: &[bool],
    mode: SeamMode,
    steps: &mut Steps<L>,
) -> Result<Level, Memory>
    requires cuttable { IsCuttable raw.now level.now }
    requires apart { apart.now ≡ apart_marks raw.now }
    requires numbers { numbers.now ≡ corner_numbers raw.now }
    requires vertices { vertices.now ≡ map (λ point. point.0) (channel_points raw.now) }
    requires kept { kept.now ≡ map (stays_sharp (mode_of mode) (cut_polygons raw.now (channel_points raw.now))) (range_with_len 0 (length (channel_points raw.now))) }
    ensures level { IfOk result (λ level. level.level ≡ cut_level (mode_of mode) raw.now) }
    ensures complete { IfOk result (λ level. level.complete ≡ replicate (length (channel_points raw.now)) true) }
    ensures steps { steps.new ≤ steps.old + length raw.now.faces }
    ensures later { steps.old ≤ steps.new }
{
    level.facts();
    let points = vertices.len() as u32;
    let mut builder = builder_of_points(alloc, level, apart, numbers, points)?;
    add_faces(&mut builder, level, numbers, steps)?;
    add_sides(&mut builder, level, apart, numbers);
    add_points(&mut builder, level, vertices, kept);
    builder.finish()
}

// Returns level 0 of the cut mesh, with the points that the mode keeps sharp. Each face is one step.
pub(crate) fn level_with<L: Ledger>(
    alloc: Global,
    raw: &RawMesh,
    level: &Level,
    apart: &[bool],
    numbers: &[u32],
    vertices: &[u32],
    mode: SeamMode,
    steps: &mut Steps<L>,
) -> Result<Level, Memory>
    requires cuttable { IsCuttable raw.now level.now }
    requires apart { apart.now ≡ apart_marks raw.now }
    requires numbers { numbers.now ≡ corner_numbers raw.now }
    requires vertices { vertices.now ≡ map (λ point. point.0) (channel_points raw.now) }
    ensures level { IfOk result (λ level. level.level ≡ cut_level (mode_of mode) raw.now) }
    ensures complete { IfOk result (λ level. level.complete ≡ replicate (length (channel_points raw.now)) true) }
    ensures steps { steps.new ≤ steps.old + length raw.now.faces }
    ensures later { steps.old ≤ steps.new }
{
    let points = vertices.len() as u32;
    let kept = kept_points(alloc, level, apart, numbers, points, mode)?;
    cut_level(
        alloc, raw, level, apart, numbers, vertices, &kept, mode, steps,
    )
}
