//! The first fault of the options and of the sharpness of tags.

ghost use Rattle.std.specs.Prelude.{◌≡◌, None};
ghost use Rattle.std.specs.List.{position};
ghost use Rattle.mesh_arrays.specs.Arrays.{is_bad_denominator};
ghost use Rattle.mesh_arrays.specs.Faults.{bad_option};

use crate::arrays::{MeshArrays, SharpEdge, SharpPoint};
use crate::fault::ArraysFault;

const DENOMINATOR_LIMIT: u64 = 1 << 60;

fn is_bad(den: u64) -> bool
    ensures { result ≡ is_bad_denominator den }
{
    den == 0 || den > DENOMINATOR_LIMIT
}

fn bad_crease(creases: &[SharpEdge]) -> Option<usize>
    ensures { result ≡ position (λ edge. is_bad_denominator edge.sharpness_den) creases.now }
{
    creases.iter().position(|edge| is_bad(edge.sharpness_den))
}

fn bad_corner_tag(tags: &[SharpPoint]) -> Option<usize>
    ensures { result ≡ position (λ point. is_bad_denominator point.sharpness_den) tags.now }
{
    tags.iter().position(|point| is_bad(point.sharpness_den))
}

// Returns the first fault of the options, then of the sharpness of creases and corner tags.
pub(crate) fn first_bad_option(arrays: &MeshArrays) -> Option<ArraysFault>
    ensures { result ≡ bad_option arrays.now }
{
    if arrays.boundary > 2 {
        return Some(ArraysFault::Boundary);
    }
    if arrays.method > 1 {
        return Some(ArraysFault::Method);
    }
    bad_crease(arrays.creases)
        .map(ArraysFault::CreaseSharpness)
        .or(bad_corner_tag(arrays.corner_tags).map(ArraysFault::CornerSharpness))
}
