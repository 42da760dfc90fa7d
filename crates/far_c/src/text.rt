//! The mesh of an OBJ text.

ghost use Rattle.std.specs.Prelude.{◌≡◌};
ghost use Rattle.mesh_arrays.specs.Written.{AreSamePlaces, IsRestKept};
ghost use Rattle.far_c.specs.Texts.{AnswersText};
ghost use Rattle.far_c.specs.Status.{IsKeptUnlessRefused, IsKeptIfRefused};

use crate::status::refused;
use array_answers::{DONE, FaultRecord, TOO_SHORT};
use far_fault::FarFault;
use mesh_answers::mesh_of_text;
use mesh_arrays::{
    MeshCounts, MeshOptions, MeshPlaces, are_long_enough, counts_of, options_of, put_mesh,
};
use std::alloc::Global;

const TEXT_LIMIT: usize = 1 << 28;

/// Writes the mesh of an OBJ text of at most 2^28 bytes, its counts and its options. If an array is too short, it writes only the counts
/// and the options. Places behind the items keep their contents.
///
/// Errors, in this order: the text is too long; its first bad line. Only the lines can want memory.
#[unsafe(no_mangle)]
pub extern "C" fn far_read_obj(
    alloc: Global,
    text: &[u8],
    counts: &mut MeshCounts,
    options: &mut MeshOptions,
    places: &mut MeshPlaces,
    fault: &mut FaultRecord,
) -> u32
    ensures answer { AnswersText text.now result counts.new options.new places.old places.new fault.new }
    ensures rest { IsRestKept counts.new places.old places.new }
    ensures places { AreSamePlaces places.old places.new }
    ensures stays { IsKeptIfRefused result counts.old counts.new × IsKeptIfRefused result options.old options.new × IsKeptUnlessRefused result fault.old fault.new }
{
    if text.len() > TEXT_LIMIT {
        *fault = refused(&FarFault::Long);
        return fault.status;
    }
    match mesh_of_text(alloc, text, 0) {
        Ok(mesh) => {
            *counts = counts_of(&mesh);
            *options = options_of(&mesh);
            if !are_long_enough(counts, places) {
                return TOO_SHORT;
            }
            put_mesh(&mesh, places);
            DONE
        }
        Err(found) => {
            *fault = refused(&found);
            fault.status
        }
    }
}
