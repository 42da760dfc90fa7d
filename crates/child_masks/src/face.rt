//! The denominators of the new points of faces.

ghost use Rattle.std.specs.Prelude.{◌≡◌, ◌<◌, ◌≤◌, length, map, get_or, IfOk};
ghost use Rattle.std.specs.List.{All};
ghost use Rattle.subdiv_model.specs.Multiples.{lcm_of_all};
ghost use Rattle.subdiv_model.specs.Mask.{OfFace};
ghost use Rattle.subdiv_model.specs.Refined.{source_denominator};
ghost use Rattle.subdiv_model.specs.Channel.{number_bound};
ghost use Rattle.child_masks.specs.Survey.{within_bound};
ghost use Rattle.child_masks.specs.Found.{ArePointDenominators, AreFaceDenominators};

use crate::common::{common_multiple, scaled};
use level_topology::Level;
use mask_rules::face_mask;
use ratio128::Memory;
use std::alloc::Global;

// Returns the least common multiple of the denominators of points.
fn multiple_of_points(points: &[u32], dens: &[u128]) -> u128
    requires within { All (λ v. v < length dens.now) points.now }
    requires positive { All (λ den. 0 < den) dens.now }
    requires short { All (λ den. den ≤ number_bound) dens.now }
    ensures { result ≡ within_bound (lcm_of_all (map (λ v. get_or dens.now v 1) points.now)) }
{
    let mut multiple = 1;
    for v in points {
        multiple = common_multiple(multiple, dens[*v as usize]);
    }
    multiple
}

// Returns the denominator of the new point of a face.
fn face_denominator(level: &Level, f: u32, dens: &[u128]) -> u128
    requires known { f < length level.now.level.polygons }
    requires dens { ArePointDenominators level.now.level dens.now }
    ensures { result ≡ within_bound (source_denominator level.now.level dens.now (OfFace f)) }
{
    level.facts();
    let size = face_mask(level, f).size() as u128;
    scaled(size, multiple_of_points(level.face_vertices(f), dens))
}

/// Returns the denominators of the new points of all faces.
pub(crate) fn face_denominators(
    alloc: Global,
    level: &Level,
    dens: &[u128],
) -> Result<Vec<u128>, Memory>
    requires { ArePointDenominators level.now.level dens.now }
    ensures { IfOk result (λ faces. AreFaceDenominators level.now.level dens.now faces.items) }
{
    let mut faces = Vec::with_capacity(alloc, level.faces() as usize)?;
    for f in 0..level.faces() {
        faces.push(face_denominator(level, f, dens))?;
    }
    Ok(faces)
}
