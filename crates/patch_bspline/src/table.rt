//! The table of a patch.

ghost use Rattle.std.specs.Prelude.{◌≡◌, ℕ, ◌<◌, ◌≤◌, true, length, replicate};
ghost use Rattle.subdiv_model.specs.Level as model;
ghost use Rattle.subdiv_model.specs.Patch.{patch_masks};
ghost use Rattle.stencil_apply.specs.Table.{Table};
ghost use Rattle.stencil_factory.specs.MaskRows.{IsRowFault};
ghost use Rattle.patch_bspline.specs.Patches.{HasPatch, IsPatchComposition, IsPatchFault};

use crate::fault::PatchFault;
use crate::masks::PatchMasks;
use crate::points::patch_points;
use crate::regular::has_patch;
use level_topology::Level;
use std::alloc::Global;
use stencil_apply::StencilTable;
use stencil_factory::{RowFault, compose_masks};

// Returns the fault of the patch for a fault of its rows.
fn patch_fault(fault: RowFault) -> PatchFault
    ensures { (level : model.Level) (face grid : ℕ) (table : Table) → HasPatch level face → IsRowFault level (patch_masks level face grid) table fault
        → IsPatchFault level face grid table result }
{
    match fault {
        RowFault::Denominator { row } => PatchFault::Denominator(row),
        RowFault::TooManyEntries => PatchFault::TooManyEntries,
        RowFault::Memory => PatchFault::Memory,
    }
}

// Returns the table of a face that has a patch.
fn patch_rows(
    alloc: Global,
    level: &Level,
    table: &StencilTable,
    face: u32,
    grid: u32,
) -> Result<StencilTable, PatchFault>
    requires has { HasPatch level.now.level face }
    requires complete { level.now.complete ≡ replicate level.now.level.point_count true }
    requires each { length table.now.rows ≡ level.now.level.point_count }
    requires some { 0 < grid }
    requires few { grid ≤ 64 }
    ensures { IsPatchComposition level.now.level face grid table.now result }
{
    level.facts();
    let points = patch_points(level, face);
    let masks = PatchMasks {
        level,
        face,
        grid,
        points,
    };
    match compose_masks(alloc, table, &masks) {
        Ok(patch) => Ok(patch),
        Err(fault) => Err(patch_fault(fault)),
    }
}

/// Returns the table of the patch of a face, over the control points of `table`.
///
/// `grid` is the number of steps along each side of the patch, from 1 to 64. Row `j * (grid + 1) + i` gives the point at i/grid from
/// corner 0 towards corner 1 and j/grid towards corner 3. Its entries are the control points that it depends on, ascending, over the
/// common denominator of the point. Faces, corners and rows are counted from 0.
///
/// `table` has a row for each point of the level, and each point of the level is complete. Neither argument changes.
///
/// Errors: `NoFace`, `NotRegular`, `Denominator`, `TooManyEntries`, in this order. `Memory` may come at any time; the test of the face
/// takes no memory.
pub fn patch_table(
    alloc: Global,
    level: &Level,
    table: &StencilTable,
    face: u32,
    grid: u32,
) -> Result<StencilTable, PatchFault>
    requires complete { level.now.complete ≡ replicate level.now.level.point_count true }
    requires each { length table.now.rows ≡ level.now.level.point_count }
    requires some { 0 < grid }
    requires few { grid ≤ 64 }
    ensures { IsPatchComposition level.now.level face grid table.now result }
{
    if face >= level.faces() {
        return Err(PatchFault::NoFace);
    }
    if !has_patch(level, face) {
        return Err(PatchFault::NotRegular);
    }
    patch_rows(alloc, level, table, face, grid)
}
