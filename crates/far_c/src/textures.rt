//! The texture of a mesh.

ghost use Rattle.std.specs.Prelude.{◌≡◌, ◌*◌, length, nat_le, map, take, drop, true, false};
ghost use Rattle.flat_arrays.specs.Places.{IsSameArray};
ghost use Rattle.flat_arrays.specs.Words.{integer_of};
ghost use Rattle.mesh_arrays.specs.Places.{IsRestKept};
ghost use Rattle.mesh_arrays.specs.Values.{all_value_numerators};
ghost use Rattle.far_c.specs.Textures.{AnswersTextureLevel, AnswersTextureValues};
ghost use Rattle.far_c.specs.Status.{IsKeptUnlessDone, IsKeptUnlessRefused, IsKeptIfRefused};

use crate::status::written;
use array_answers::{FaultRecord, TextureArrays, texture_of_arrays};
use flat_arrays::Wide;
use mesh_arrays::{
    LevelCounts, LevelPlaces, MeshArrays, level_counts_of, put_exact_values, put_level,
};
use std::alloc::Global;

// The number of points of the cut mesh.
fn count_of(found: &TextureArrays) -> u64
    ensures { result ≡ length found.now.texture.values.items }
{
    found.texture.values.len() as u64
}

// Writes the values of the points of the cut mesh if the array is long enough, and returns whether it is.
fn put_values(found: &TextureArrays, out: &mut [Wide]) -> bool
    ensures long_enough { result ≡ nat_le (2 * length found.now.texture.values.items) (length out.old) }
    ensures written { result ≡ true → map integer_of (take (2 * length found.now.texture.values.items) out.new) ≡ all_value_numerators found.now.texture.values.items }
    ensures rest { drop (2 * length found.now.texture.values.items) out.new ≡ drop (2 * length found.now.texture.values.items) out.old }
    ensures kept { result ≡ false → out.new ≡ out.old }
    ensures len { length out.new ≡ length out.old }
{
    let values = found.texture.values.as_slice();
    if out.len() / 2 < values.len() {
        return false;
    }
    put_exact_values(values, out);
    true
}

/// Writes the level of a mesh's cut mesh at `depth`, at most 10, and its counts. The level has the size and the corners of each face, the
/// ends of each edge, and the holes. `seams` chooses what stays sharp: 0 nothing, 1 the corners of charts, 2 their whole boundaries, 3
/// every point. If an array is too short, it writes only the counts. Places behind the items keep their contents.
#[unsafe(no_mangle)]
pub extern "C" fn far_texture_level(
    alloc: Global,
    mesh: &MeshArrays,
    seams: u32,
    depth: u32,
    counts: &mut LevelCounts,
    places: &mut LevelPlaces,
    fault: &mut FaultRecord,
) -> u32
    ensures answer { AnswersTextureLevel mesh.now seams depth result counts.new places.old places.new fault.new }
    ensures rest { IsRestKept counts.new places.old places.new }
    ensures face_sizes { IsSameArray places.old.face_sizes places.new.face_sizes }
    ensures corners { IsSameArray places.old.corners places.new.corners }
    ensures edges { IsSameArray places.old.edges places.new.edges }
    ensures holes { IsSameArray places.old.holes places.new.holes }
    ensures stays { IsKeptIfRefused result counts.old counts.new × IsKeptUnlessRefused result fault.old fault.new }
{
    match texture_of_arrays(alloc, mesh, seams, depth) {
        Ok(found) => {
            *counts = level_counts_of(&found.texture.level);
            let done = put_level(&found.texture.level, places);
            // The prover proves a named drop once for each type.
            drop(found);
            written(done)
        }
        Err(refused) => {
            *fault = refused;
            refused.status
        }
    }
}

/// Writes the values of the points of a mesh's cut mesh, and their number. A value has two numerators over the common denominator of the
/// texture. The order is that of the control points of texture tables. If `out` is too short, the call writes only the number. Places
/// behind the values keep their contents.
#[unsafe(no_mangle)]
pub extern "C" fn far_texture_values(
    alloc: Global,
    mesh: &MeshArrays,
    seams: u32,
    count: &mut u64,
    out: &mut [Wide],
    fault: &mut FaultRecord,
) -> u32
    ensures answer { AnswersTextureValues mesh.now seams result count.new out.old out.new fault.new }
    ensures rest { drop (2 * count.new) out.new ≡ drop (2 * count.new) out.old }
    ensures kept { IsKeptUnlessDone result out.old out.new }
    ensures len { length out.new ≡ length out.old }
    ensures stays { IsKeptIfRefused result count.old count.new × IsKeptUnlessRefused result fault.old fault.new }
{
    match texture_of_arrays(alloc, mesh, seams, 0) {
        Ok(found) => {
            *count = count_of(&found);
            let done = put_values(&found, out);
            // The prover proves a named drop once for each type.
            drop(found);
            written(done)
        }
        Err(refused) => {
            *fault = refused;
            refused.status
        }
    }
}
