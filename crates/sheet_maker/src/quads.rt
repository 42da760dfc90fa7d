//! The quads of a sheet.

ghost use Rattle.std.specs.Prelude.{◌≡◌, ◌≤◌, ◌<◌, ◌++◌, IfOk};
ghost use Rattle.subdiv_model.specs.Generator.{sheet_quad};
ghost use Rattle.sheet_maker.specs.Rows.{row_corners, sheet_corners};

use crate::number::point_number;
use ratio128::Memory;
use std::alloc::Global;

// Puts the corners of the quad in row `i` and column `j`.
fn put_quad(corners: &mut Vec<u32>, size: u32, i: u32, j: u32) -> Result<(), Memory>
    requires few { size ≤ 256 }
    requires row { i < size }
    requires column { j < size }
    ensures { IfOk result (λ _. corners.new.items ≡ corners.old.items ++ sheet_quad size i j) }
{
    corners.push(point_number(size, i, j))?;
    corners.push(point_number(size, i, j + 1))?;
    corners.push(point_number(size, i + 1, j + 1))?;
    corners.push(point_number(size, i + 1, j))?;
    Ok(())
}

// Puts the corners of the quads of row `i`.
fn put_row(corners: &mut Vec<u32>, size: u32, i: u32) -> Result<(), Memory>
    requires few { size ≤ 256 }
    requires row { i < size }
    ensures { IfOk result (λ _. corners.new.items ≡ corners.old.items ++ row_corners size i) }
{
    for j in 0..size {
        put_quad(corners, size, i, j)?;
    }
    Ok(())
}

// The corners of all quads, one after the other.
pub(crate) fn corners_of_quads(alloc: Global, size: u32) -> Result<Vec<u32>, Memory>
    requires few { size ≤ 256 }
    ensures { IfOk result (λ corners. corners.items ≡ sheet_corners size) }
{
    let side = size as usize;
    let mut corners = Vec::with_capacity(alloc, 4 * side * side)?;
    for i in 0..size {
        put_row(&mut corners, size, i)?;
    }
    Ok(corners)
}
