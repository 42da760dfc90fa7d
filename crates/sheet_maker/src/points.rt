//! The points of a sheet.

ghost use Rattle.std.specs.Prelude.{◌≡◌, ◌≤◌, ◌++◌, length, map, IfOk};
ghost use Rattle.raw_mesh.specs.View.{point_of};
ghost use Rattle.subdiv_model.specs.Generator.{sheet_points};
ghost use Rattle.sheet_maker.specs.Rows.{point_count, place_of, row_points};

use crate::number::point_number;
use ratio128::{Memory, Point3};
use std::alloc::Global;

// The point in row `i` and column `j`, at its drawn height.
fn point(draws: &[u8], size: u32, i: u32, j: u32) -> Point3
    requires few { size ≤ 256 }
    requires drawn { point_count size ≤ length draws.now }
    requires row { i ≤ size }
    requires column { j ≤ size }
    ensures { point_of result ≡ place_of size draws.now i j }
{
    let height = draws[point_number(size, i, j) as usize];
    Point3 {
        x: i128::from(10 * j),
        y: i128::from(10 * i),
        z: i128::from(height),
    }
}

// Puts the points of row `i`.
fn put_row(points: &mut Vec<Point3>, draws: &[u8], size: u32, i: u32) -> Result<(), Memory>
    requires few { size ≤ 256 }
    requires drawn { point_count size ≤ length draws.now }
    requires row { i ≤ size }
    ensures { IfOk result (λ _. map point_of points.new.items ≡ map point_of points.old.items ++ row_points size draws.now i) }
{
    for j in 0..size + 1 {
        points.push(point(draws, size, i, j))?;
    }
    Ok(())
}

// The points of all rows.
pub(crate) fn points_of_rows(alloc: Global, draws: &[u8], size: u32) -> Result<Vec<Point3>, Memory>
    requires few { size ≤ 256 }
    requires drawn { point_count size ≤ length draws.now }
    ensures { IfOk result (λ points. map point_of points.items ≡ sheet_points size draws.now) }
{
    let side = size as usize + 1;
    let mut points = Vec::with_capacity(alloc, side * side)?;
    for i in 0..size + 1 {
        put_row(&mut points, draws, size, i)?;
    }
    Ok(points)
}
