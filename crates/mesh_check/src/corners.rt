//! The corners of each face: at least three, and no vertex twice.

ghost use Rattle.std.specs.Prelude.{◌≡◌, ℕ, ◌+◌, ◌<◌, ◌≤◌, ◌++◌, length, map, get_or, IfOk, OnOk, not};
ghost use Rattle.std.specs.List.{All};
ghost use Rattle.subdiv_model.specs.Lists.{first_of};
ghost use Rattle.subdiv_model.specs.Polygons.{is_distinct};
ghost use Rattle.subdiv_model.specs.MeshFault.{FaceTooSmall, RepeatedVertex, small_faces, repeating_faces};
ghost use Rattle.mesh_check.specs.View.{mesh_fault_of};

use crate::fault::MeshFault;
use crate::marks::{mark_at, no_marks};
use crate::put::put_if;
use ratio128::Memory;
use raw_mesh::RawMesh;
use std::alloc::Global;

// Returns the first face with fewer than three corners.
pub(crate) fn small_face(raw: &RawMesh) -> Option<u32>
    ensures { result ≡ first_of (small_faces raw.now.faces) }
{
    for f in 0..raw.faces() {
        if raw.face(f).len() < 3 {
            return Some(f);
        }
    }
    None
}

// Returns whether a face has a vertex twice. It puts the mark of the face at each vertex that it visits.
fn has_twice(face: &[u32], marks: &mut Vec<u32>, mark: u32) -> bool
    requires inside { All (λ v. v < length marks.old.items) face.now }
    requires fresh { (v : ℕ) → get_or marks.old.items v 0 < mark }
    ensures twice { result ≡ not (is_distinct face.now) }
    ensures marks { (v : ℕ) → get_or marks.new.items v 0 ≤ mark }
    ensures size { length marks.new.items ≡ length marks.old.items }
{
    for i in 0..face.len() {
        if mark_at(marks, face[i] as usize, mark) {
            return true;
        }
    }
    false
}

// Returns the first face that has a vertex twice. A table contains for each vertex the last face that was seen there.
pub(crate) fn repeating_face(alloc: Global, raw: &RawMesh) -> Result<Option<u32>, Memory>
    ensures { IfOk result (λ found. found ≡ first_of (repeating_faces raw.now.faces)) }
{
    raw.facts();
    let mut marks = no_marks(alloc, raw.points().len())?;
    for f in 0..raw.faces() {
        if has_twice(raw.face(f), &mut marks, f + 1) {
            return Ok(Some(f));
        }
    }
    Ok(None)
}

// Adds the faces with fewer than three corners after other faults, ascending.
pub(crate) fn put_small_faces(faults: &mut Vec<MeshFault>, raw: &RawMesh) -> Result<(), Memory>
    ensures { OnOk result (map mesh_fault_of faults.new.items ≡ map mesh_fault_of faults.old.items ++ map FaceTooSmall (small_faces raw.now.faces)) }
{
    for f in 0..raw.faces() {
        let small = raw.face(f).len() < 3;
        put_if(small, faults, MeshFault::FaceTooSmall(f))?;
    }
    Ok(())
}

// Adds the faces that have a vertex twice after other faults, ascending.
pub(crate) fn put_repeating_faces(
    alloc: Global,
    faults: &mut Vec<MeshFault>,
    raw: &RawMesh,
) -> Result<(), Memory>
    ensures { OnOk result (map mesh_fault_of faults.new.items ≡ map mesh_fault_of faults.old.items ++ map RepeatedVertex (repeating_faces raw.now.faces)) }
{
    raw.facts();
    let mut marks = no_marks(alloc, raw.points().len())?;
    for f in 0..raw.faces() {
        let twice = has_twice(raw.face(f), &mut marks, f + 1);
        put_if(twice, faults, MeshFault::RepeatedVertex(f))?;
    }
    Ok(())
}
