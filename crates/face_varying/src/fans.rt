//! The corners at a vertex that edges join.

ghost use Rattle.std.specs.Prelude.{◌≡◌, ◌<◌, length, IfOk, if◌then◌else◌};
ghost use Rattle.std.specs.List.{sum_by};
ghost use Rattle.subdiv_model.specs.ObjMesh.{ObjMesh};
ghost use Rattle.face_varying.specs.Corners.{AreLabels, apart_marks, corner_points};
ghost use Rattle.face_varying.specs.CornerPlaces.{KeepsOthers};
ghost use Rattle.face_varying.specs.Cut.{IsCuttable};
ghost use Rattle.face_varying.specs.Fans.{HasRuns, corner_in, face_count, is_cut, last_run};

use level_topology::Level;
use ratio128::Memory;
use std::alloc::Global;

// Returns the corner of one of the faces at a vertex, by its place there.
fn corner_in(level: &Level, v: u32, i: usize) -> u32
    requires vertex { v < level.now.level.point_count }
    requires place { i < face_count level.now v }
    ensures { result ≡ corner_in level.now v i }
{
    level.facts();
    let face = level.vertex_faces(v)[i];
    let place = level.vertex_faces_at(v)[i];
    level.corner_starts()[face as usize] + u32::from(place)
}

// Returns the start of the run of the face at this place. It is the place itself if the face is apart from the face before it.
// Otherwise it is the start of the run before.
fn run_start(level: &Level, apart: &[bool], v: u32, i: usize, before: usize) -> usize
    requires vertex { v < level.now.level.point_count }
    requires place { i < face_count level.now v }
    ensures { result ≡ (if is_cut level.now apart.now v i then i else before) }
{
    level.facts();
    let edge = level.vertex_edges(v)[i];
    let is_cut = apart.get(edge as usize).copied().unwrap_or(false);
    if is_cut { i } else { before }
}

// Returns the start of the last run at a vertex.
fn last_run(level: &Level, apart: &[bool], v: u32) -> usize
    requires { v < level.now.level.point_count }
    ensures { result ≡ last_run level.now apart.now v }
{
    let mut start = 0;
    for i in 0..level.vertex_faces(v).len() {
        start = run_start(level, apart, v, i, start);
    }
    start
}

// Labels each corner at a vertex with the corner at which its run begins.
fn label_vertex(labels: &mut Vec<u32>, level: &Level, apart: &[bool], v: u32)
    requires vertex { v < level.now.level.point_count }
    requires corners { length labels.old.items ≡ sum_by length level.now.level.polygons }
    ensures corners { length labels.new.items ≡ length labels.old.items }
    ensures runs { HasRuns level.now apart.now v (face_count level.now v) labels.new.items }
    ensures others { KeepsOthers level.now.level.polygons v labels.old.items labels.new.items }
{
    level.facts();
    let mut start = last_run(level, apart, v);
    for i in 0..level.vertex_faces(v).len() {
        start = run_start(level, apart, v, i, start);
        labels[corner_in(level, v, i) as usize] = corner_in(level, v, start);
    }
}

// Returns the number of corners of all faces together.
fn corner_count(level: &Level) -> u32
    ensures { result ≡ sum_by length level.now.level.polygons }
{
    level.corner_starts()[level.faces() as usize]
}

// Returns for each corner, in the order of faces and corners, the first in fan order of the corners joined with it. It walks
// once about each vertex.
pub(crate) fn joined_corners(
    alloc: Global,
    level: &Level,
    apart: &[bool],
) -> Result<Vec<u32>, Memory>
    ensures { (mesh : ObjMesh) → IsCuttable mesh level.now → apart.now ≡ apart_marks mesh → IfOk result (λ labels. AreLabels (corner_points mesh) labels.items) }
{
    level.facts();
    let mut labels = vec![in alloc; 0; corner_count(level) as usize]?;
    for v in 0..level.points() {
        label_vertex(&mut labels, level, apart, v);
    }
    Ok(labels)
}
