//! The parts of a mesh on which the points and faces of a level lie.

ghost use Rattle.std.specs.Prelude.{◌≡◌};
ghost use Rattle.flat_arrays.specs.Places.{IsSameArray};
ghost use Rattle.far_c.specs.Origins.{AnswersOrigins};
ghost use Rattle.far_c.specs.Status.{IsKeptUnlessRefused, IsKeptIfRefused};

use crate::status::written;
use array_answers::{FaultRecord, origins_of_arrays};
use level_walk::{OriginCounts, OriginPlaces, origin_counts_of, put_origins};
use mesh_arrays::MeshArrays;
use std::alloc::Global;

/// Writes the parts of a mesh on which its level at `depth`, at most 10, lies. Each point gets the kind and the number of its part, each
/// face the face of the mesh that contains it. The call also writes the numbers of points and faces; if an array is too short, it writes
/// only these.
#[unsafe(no_mangle)]
pub extern "C" fn far_origins(
    alloc: Global,
    mesh: &MeshArrays,
    depth: u32,
    counts: &mut OriginCounts,
    places: &mut OriginPlaces,
    fault: &mut FaultRecord,
) -> u32
    ensures answer { AnswersOrigins mesh.now depth result counts.new places.old places.new fault.new }
    ensures kinds { IsSameArray places.old.kinds places.new.kinds }
    ensures numbers { IsSameArray places.old.numbers places.new.numbers }
    ensures faces { IsSameArray places.old.faces places.new.faces }
    ensures stays { IsKeptIfRefused result counts.old counts.new × IsKeptUnlessRefused result fault.old fault.new }
{
    match origins_of_arrays(alloc, mesh, depth) {
        Ok(origins) => {
            *counts = origin_counts_of(&origins);
            let done = put_origins(&origins, places);
            // The prover proves a named drop once for each type.
            drop(origins);
            written(done)
        }
        Err(found) => {
            *fault = found;
            found.status
        }
    }
}
