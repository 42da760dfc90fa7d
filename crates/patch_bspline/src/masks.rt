//! The masks of the points of a patch.

ghost use Rattle.std.specs.Prelude.{◌≡◌, ◌+◌, ◌/◌, ◌%◌, ◌≤◌};

use crate::points::PatchPoints;
use crate::weigh::put_place;
use level_topology::Level;
use ratio128::Memory;
use std::marker::Model;
use stencil_factory::{PointMasks, PointWeights};

// Returns the place (i, j) of a row of the table.
fn place_of(grid: u32, row: u32) -> (u32, u32)
    requires { grid ≤ 64 }
    ensures { result ≡ (row % (grid + 1), row / (grid + 1)) }
{
    let width = grid + 1;
    (row % width, row / width)
}

/// The masks of the points of a patch on a grid.
#[derive(Drop)]
pub(crate) struct PatchMasks<'a> {
    pub(crate) level: &'a Level,
    pub(crate) face: u32,
    pub(crate) grid: u32,
    pub(crate) points: PatchPoints,
}

impl<'a> Model for PatchMasks<'a> {
    ghost use Rattle.patch_bspline.specs.Masks.{PatchGrid, HasPoints};

    ghost Value = { PatchGrid };

    ghost view = { λ m. record { level = m.level.now.level; face = m.face; grid = m.grid } };

    ghost invariant = { λ m. HasPoints m.level.now m.face m.grid m.points };
}

impl PointMasks for PatchMasks<'_> {
    ghost use Rattle.subdiv_model.specs.Patch.{patch_masks};

    ghost level = { λ m. m.level };

    ghost masks = { λ m. patch_masks m.level m.face m.grid };

    fn count(&self) -> u32 {
        (self.grid + 1) * (self.grid + 1)
    }

    fn put(&self, row: u32, weights: &mut PointWeights) -> Result<(), Memory> {
        let (i, j) = place_of(self.grid, row);
        put_place(&self.points, self.grid, i, j, weights)
    }
}
