//! The weights of a point of a patch.

ghost use Rattle.std.specs.Prelude.{◌≡◌, ◌*◌, ◌^◌, ◌≤◌, zip, length, OnOk};
ghost use Rattle.std.specs.List.{flat_map};
ghost use Rattle.subdiv_model.specs.Patch.{row_terms, spline_weights};
ghost use Rattle.patch_bspline.specs.Around.{with_terms};

use crate::points::PatchPoints;
use crate::spline::{denominator, spline_weights};
use ratio128::Memory;
use stencil_factory::PointWeights;

// Puts the points of one row of a patch: each weight is the one along the row times the row's own.
fn put_row(
    row: &[u32; 4],
    along: &[u32; 4],
    across: u32,
    weights: &mut PointWeights,
) -> Result<(), Memory>
    ensures { OnOk result (weights.new ≡ with_terms weights.old (row_terms along.now (across, row.now))) }
{
    for i in 0..4 {
        weights.put(row[i], u128::from(along[i]) * u128::from(across))?;
    }
    Ok(())
}

/// Puts the weights of the 16 points at the place (i/m, j/m) of a patch.
pub(crate) fn put_place(
    points: &PatchPoints,
    m: u32,
    i: u32,
    j: u32,
    weights: &mut PointWeights,
) -> Result<(), Memory>
    requires along { i ≤ m }
    requires across { j ≤ m }
    requires few { m ≤ 64 }
    requires rows { length points.now ≡ 4 }
    ensures { OnOk result (weights.new ≡ record {
      terms = flat_map (row_terms (spline_weights m i)) (zip (spline_weights m j) points.now);
      denominator = 36 * m ^ 6;
    }) }
{
    let along = spline_weights(m, i);
    let across = spline_weights(m, j);
    weights.start(denominator(m));
    for k in 0..4 {
        put_row(points.row(k), &along, across[k], weights)?;
    }
    Ok(())
}
