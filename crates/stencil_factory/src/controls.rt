//! Builds the table of the control points: each row is one control point.

ghost use Rattle.std.specs.Prelude.{◌≡◌, ◌≤◌, ◌^◌, IfOk};
ghost use Rattle.stencil_factory.specs.Composed.{identity_table};

use number_width::Width;
use ratio128::Memory;
use std::alloc::Global;
use stencil_apply::{Entry, StencilTable, TableBuilder};

/// Returns the table of the control points: row `v` has one entry, control point `v` with numerator 1 over the denominator 1.
///
/// `points` is at most 2^27. The error is `Memory`: memory ran out.
pub fn identity(alloc: Global, points: u32) -> Result<StencilTable, Memory>
    requires { points ≤ 2 ^ 27 }
    ensures { IfOk result (λ table. table ≡ identity_table points) }
{
    let entries = u64::from(points);
    let mut builder = TableBuilder::with_room(alloc, points, points, entries, Width::Narrow)?;
    for v in 0..points {
        let own = Entry {
            index: v,
            numerator: 1,
        };
        builder.add_row(1, &[own])?;
    }
    Ok(builder.finish())
}
