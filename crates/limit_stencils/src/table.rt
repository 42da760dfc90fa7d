//! The tables of limit points.

ghost use Rattle.std.specs.Prelude.{◌≡◌, true, IsTrue, length, replicate};
ghost use Rattle.subdiv_model.specs.Level as model;
ghost use Rattle.subdiv_model.specs.Limit.{has_quads, limit_causes, limit_masks};
ghost use Rattle.mask_laws.specs.SharpBoundary.{has_sharp_boundary};
ghost use Rattle.stencil_apply.specs.Table.{Table};
ghost use Rattle.stencil_factory.specs.MaskRows.{IsRowFault};
ghost use Rattle.limit_stencils.specs.Limits.{HasLimits, IsLimitComposition, IsLimitFault, IsQuadComposition, IsQuadFault};

use crate::fault::{LimitFault, QuadFault};
use crate::masks::{LimitMasks, limit_masks};
use crate::quads::first_other;
use level_topology::Level;
use std::alloc::Global;
use stencil_apply::StencilTable;
use stencil_factory::{RowFault, compose_masks};

/// Returns the fault of the limit table for a fault of its rows.
pub(crate) fn quad_fault(fault: RowFault) -> QuadFault
    ensures { (level : model.Level) (table : Table) → HasLimits level → IsRowFault level (limit_masks level) table fault → IsQuadFault level table result }
{
    match fault {
        RowFault::Denominator { row } => QuadFault::Denominator(row),
        RowFault::TooManyEntries => QuadFault::TooManyEntries,
        RowFault::Memory => QuadFault::Memory,
    }
}

// Returns the fault of a level for a fault of a level of quads.
fn limit_fault(fault: QuadFault) -> LimitFault
    ensures { (level : model.Level) (table : Table) → IsQuadFault level table fault → IsLimitFault level table result }
{
    match fault {
        QuadFault::Dart(v) => LimitFault::Dart(v),
        QuadFault::SemiSharp(v) => LimitFault::SemiSharp(v),
        QuadFault::Denominator(v) => LimitFault::Denominator(v),
        QuadFault::TooManyEntries => LimitFault::TooManyEntries,
        QuadFault::Memory => LimitFault::Memory,
    }
}

// Returns the limit table of a level in which each point has a limit mask.
fn limit_rows(
    alloc: Global,
    table: &StencilTable,
    masks: &LimitMasks,
) -> Result<StencilTable, QuadFault>
    requires limits { HasLimits masks.now.level }
    requires each { length table.now.rows ≡ masks.now.level.point_count }
    ensures { IsQuadComposition masks.now.level table.now result }
{
    match compose_masks(alloc, table, masks) {
        Ok(limits) => Ok(limits),
        Err(fault) => Err(quad_fault(fault)),
    }
}

/// Returns the table of the limit points of a level of quads, over the control points of `table`. Row v gives the limit point of point v:
/// the control points that it depends on, ascending, over its common denominator.
///
/// `table` has a row for each point of the level. Each point of the level is complete, and each edge of one face is infinitely sharp.
/// Neither argument changes.
///
/// A smooth point of n edges has weight n², each edge's other end 4 and the opposite corner of each quad 1, over n(n + 5). A point of a
/// crease has weight 4 and its two neighbours on the crease 1 each, over 6. A corner keeps its place.
///
/// Errors: the least point without a limit mask (`Dart` or `SemiSharp`), `Denominator`, `TooManyEntries`, in this order. `Memory` may come
/// at any time. A point that is infinitely sharp, has at least three infinitely sharp edges or has no edge is a corner. A corner has a
/// limit mask even if something there is semi-sharp.
pub fn limit_table_of_quads(
    alloc: Global,
    level: &Level,
    table: &StencilTable,
) -> Result<StencilTable, QuadFault>
    requires quads { has_quads level.now.level ≡ true }
    requires complete { level.now.complete ≡ replicate level.now.level.point_count true }
    requires boundary { IsTrue (has_sharp_boundary level.now.level) }
    requires each { length table.now.rows ≡ level.now.level.point_count }
    ensures { IsQuadComposition level.now.level table.now result }
{
    let masks = limit_masks(level)?;
    limit_rows(alloc, table, &masks)
}

/// Returns the table of the limit points of a level, over the control points of `table`. [`limit_table_of_quads`] describes the rows and
/// the errors.
///
/// Error `NotQuads`, before all others: the least face, counted from 0, that does not have four corners.
pub fn limit_table(
    alloc: Global,
    level: &Level,
    table: &StencilTable,
) -> Result<StencilTable, LimitFault>
    requires complete { level.now.complete ≡ replicate level.now.level.point_count true }
    requires boundary { IsTrue (has_sharp_boundary level.now.level) }
    requires each { length table.now.rows ≡ level.now.level.point_count }
    ensures { IsLimitComposition level.now.level table.now result }
{
    if let Some(face) = first_other(level) {
        return Err(LimitFault::NotQuads(face));
    }
    match limit_table_of_quads(alloc, level, table) {
        Ok(limits) => Ok(limits),
        Err(fault) => Err(limit_fault(fault)),
    }
}
