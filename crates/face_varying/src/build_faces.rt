//! The faces of the cut mesh.

ghost use Rattle.std.specs.Prelude.{◌≡◌, ◌+◌, ◌≤◌, ◌^◌, length, IfOk, OnOk};
ghost use Rattle.std.specs.List.{sum_by};
ghost use Rattle.level_builder.specs.Builder.{only_points};
ghost use Rattle.mesh_check.specs.Base.{smooth_built};
ghost use Rattle.face_varying.specs.Built.{AreFit, cut_by};

use crate::cut_faces::cut_face;
use level_builder::{LevelBuilder, MeshKey};
use level_topology::Level;
use ratio128::{Memory, Steps};
use std::alloc::Global;
use std::sync::ledger::Ledger;

// Returns the key of the faces. It depends on the point of every corner and the size of every face.
fn key_of(level: &Level, numbers: &[u32]) -> u128 {
    let mut key = MeshKey::new();
    key.add(level.corner_starts());
    key.add(numbers);
    key.finish()
}

// Returns a bound of the number of edges of the cut mesh. It counts each edge of the mesh once, and once more where the faces
// there are apart.
fn most_edges(level: &Level, apart: &[bool]) -> u32 {
    let mut most = level.edges();
    for mark in apart {
        most = most.saturating_add(u32::from(*mark));
    }
    most
}

// Returns a builder that has only the points, with memory for all that follows.
pub(crate) fn builder_of_points(
    alloc: Global,
    level: &Level,
    apart: &[bool],
    numbers: &[u32],
    points: u32,
) -> Result<LevelBuilder, Memory>
    requires points { points ≤ 2 ^ 30 }
    requires few { length numbers.now ≤ 2 ^ 30 }
    ensures { IfOk result (λ b. b ≡ only_points points level.now.level.method) }
{
    let corners = numbers.len() as u32;
    let edges = most_edges(level, apart);
    let key = key_of(level, numbers);
    LevelBuilder::with_key(
        alloc,
        points,
        level.faces(),
        corners,
        edges,
        level.method(),
        key,
    )
}

// Adds the faces with their marks.
pub(crate) fn add_faces<L: Ledger>(
    builder: &mut LevelBuilder,
    level: &Level,
    numbers: &[u32],
    steps: &mut Steps<L>,
) -> Result<(), Memory>
    requires fit { AreFit builder.old.level.point_count (cut_by level.now.level.polygons numbers.now) }
    requires numbers { length numbers.now ≡ sum_by length level.now.level.polygons }
    requires holes { length level.now.level.holes ≡ length level.now.level.polygons }
    requires no_faces { builder.old ≡ only_points builder.old.level.point_count builder.old.level.method }
    ensures faces { OnOk result (builder.new ≡ smooth_built builder.old.level.point_count builder.old.level.method (cut_by level.now.level.polygons numbers.now) level.now.level.holes) }
    ensures steps { steps.new ≤ steps.old + length level.now.level.polygons }
    ensures later { steps.old ≤ steps.new }
{
    for f in 0..level.faces() {
        builder.add_face(cut_face(level, numbers, f), level.is_hole(f), steps)?;
    }
    Ok(())
}
