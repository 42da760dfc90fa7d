//! The faces and edges of a level of a mesh.

ghost use Rattle.std.specs.Prelude.{◌≡◌};
ghost use Rattle.flat_arrays.specs.Places.{IsSameArray};
ghost use Rattle.mesh_arrays.specs.Places.{IsRestKept};
ghost use Rattle.far_c.specs.Answers.{AnswersLevel};
ghost use Rattle.far_c.specs.Status.{IsKeptUnlessRefused, IsKeptIfRefused};

use crate::status::written;
use array_answers::{FaultRecord, refine_arrays};
use mesh_arrays::{LevelCounts, LevelPlaces, MeshArrays, level_counts_of, put_level};
use std::alloc::Global;

/// Writes the level of a mesh at `depth`, at most 10, and its counts. The level has the size and the corners of each face, the ends of each
/// edge, and the holes. If an array is too short, it writes only the counts. Places behind the items keep their contents.
#[unsafe(no_mangle)]
pub extern "C" fn far_level(
    alloc: Global,
    mesh: &MeshArrays,
    depth: u32,
    counts: &mut LevelCounts,
    places: &mut LevelPlaces,
    fault: &mut FaultRecord,
) -> u32
    ensures answer { AnswersLevel mesh.now depth result counts.new places.old places.new fault.new }
    ensures rest { IsRestKept counts.new places.old places.new }
    ensures face_sizes { IsSameArray places.old.face_sizes places.new.face_sizes }
    ensures corners { IsSameArray places.old.corners places.new.corners }
    ensures edges { IsSameArray places.old.edges places.new.edges }
    ensures holes { IsSameArray places.old.holes places.new.holes }
    ensures stays { IsKeptIfRefused result counts.old counts.new × IsKeptUnlessRefused result fault.old fault.new }
{
    match refine_arrays(alloc, mesh, depth) {
        Ok(refined) => {
            *counts = level_counts_of(&refined.composed.level);
            let done = put_level(&refined.composed.level, places);
            // The prover proves a named drop once for each type.
            drop(refined);
            written(done)
        }
        Err(found) => {
            *fault = found;
            found.status
        }
    }
}
