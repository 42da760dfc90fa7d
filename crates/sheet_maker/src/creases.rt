//! The creases of a sheet.

ghost use Rattle.std.specs.Prelude.{◌≡◌, ◌+◌, ◌≤◌, ◌<◌, ◌++◌, length, map, drop, get_or, IfOk};
ghost use Rattle.std.specs.List.{All};
ghost use Rattle.sharpness_rules.specs.View.{sharpness_of};
ghost use Rattle.raw_mesh.specs.View.{crease_of};
ghost use Rattle.subdiv_model.specs.Generator.{row_creases, sheet_creases};
ghost use Rattle.sheet_maker.specs.Rows.{point_count, drawn_sharpness, HasEnds};

use crate::number::point_number;
use ratio128::Memory;
use raw_mesh::Crease;
use sharpness_rules::Sharpness;
use std::alloc::Global;

// Puts the creases along row `i`.
fn put_row(creases: &mut Vec<Crease>, size: u32, i: u32, sharpness: Sharpness) -> Result<(), Memory>
    requires few { size ≤ 256 }
    requires row { i ≤ size }
    requires ends { All (HasEnds size) creases.old.items }
    ensures creases { IfOk result (λ _. map crease_of creases.new.items ≡ map crease_of creases.old.items ++ row_creases size i (sharpness_of sharpness)) }
    ensures ends { IfOk result (λ _. All (HasEnds size) creases.new.items) }
{
    for j in 0..size {
        let a = point_number(size, i, j);
        let b = point_number(size, i, j + 1);
        creases.push(Crease { a, b, sharpness })?;
    }
    Ok(())
}

// The sharpness along row k + 1: half of draw k after the draws of the points.
fn row_sharpness(draws: &[u8], size: u32, k: u32) -> Sharpness
    requires few { size ≤ 256 }
    requires row { k < size }
    requires drawn { point_count size + size ≤ length draws.now }
    ensures { sharpness_of result ≡ drawn_sharpness (get_or (drop (point_count size) draws.now) k 0) }
{
    let points = (size + 1) * (size + 1);
    Sharpness::new(draws[(points + k) as usize] as u64, 2)
}

// The creases along the inner rows of the sheet. The sharpness of each row is half of its draw; these draws follow those of the points.
pub(crate) fn creases_of_rows(alloc: Global, draws: &[u8], size: u32) -> Result<Vec<Crease>, Memory>
    requires some { 1 ≤ size }
    requires few { size ≤ 256 }
    requires drawn { point_count size + size ≤ length draws.now }
    ensures creases { IfOk result (λ creases. map crease_of creases.items ≡ sheet_creases size (drop (point_count size) draws.now)) }
    ensures ends { IfOk result (λ creases. All (HasEnds size) creases.items) }
{
    let rows = size - 1;
    let mut creases = Vec::with_capacity(alloc, rows as usize * size as usize)?;
    for k in 0..rows {
        let sharpness = row_sharpness(draws, size, k);
        put_row(&mut creases, size, k + 1, sharpness)?;
    }
    Ok(creases)
}
