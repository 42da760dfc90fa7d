//! The limit points of a level over controls, without their table.

ghost use Rattle.std.specs.Prelude.{◌≡◌, ◌+◌, ◌≤◌, true, IsTrue, length, map, OnOk, MatchResult};
ghost use Rattle.subdiv_model.specs.Limit.{has_quads, limit_masks};
ghost use Rattle.mask_laws.specs.SharpBoundary.{has_sharp_boundary};
ghost use Rattle.stencil_factory.specs.MaskRows.{mask_entries};
ghost use Rattle.stencil_factory.specs.MaskValues.{CanEvaluateMasks};
ghost use Rattle.limit_stencils.specs.Limits.{AreLimitPoints, HasLimits, IsQuadFault};

use crate::fault::QuadFault;
use crate::masks::{LimitMasks, limit_masks};
use crate::table::quad_fault;
use level_topology::Level;
use ratio128::{Primvar, Steps, Valued};
use std::alloc::Global;
use std::sync::ledger::Ledger;
use stencil_apply::StencilTable;
use stencil_factory::evaluate_masks;

// Returns the limit points of a level in which each point has a limit mask.
fn points_of_masks<P: Primvar<L>, L: Ledger>(
    alloc: Global,
    table: &StencilTable,
    masks: &LimitMasks,
    controls: &[P],
    steps: &mut Steps<L>,
) -> Result<Vec<Valued<P>>, QuadFault>
    requires limits { HasLimits masks.now.level }
    requires each { length table.now.rows ≡ masks.now.level.point_count }
    requires can { CanEvaluateMasks masks.now.level (limit_masks masks.now.level) table.now (map P.numbers controls.now) }
    ensures values { MatchResult result
        (λ values. AreLimitPoints masks.now.level table.now (map P.numbers controls.now) (map (λ v. (P.numbers v.value, v.den)) values.items))
        (IsQuadFault masks.now.level table.now) }
    ensures taken { OnOk result (steps.new ≡ steps.old + mask_entries masks.now.level table.now (limit_masks masks.now.level)) }
    ensures steps { steps.new ≤ steps.old + mask_entries masks.now.level table.now (limit_masks masks.now.level) }
    ensures later { steps.old ≤ steps.new }
{
    match evaluate_masks(alloc, table, masks, controls, steps) {
        Ok(values) => Ok(values),
        Err(fault) => Err(quad_fault(fault)),
    }
}

/// Returns the limit points of a level of quads over `controls`, each with its common denominator. Each entry of the rows of
/// [`limit_table_of_quads`](crate::limit_table_of_quads) is one step; the call makes no table of them.
///
/// `table` has a row for each point of the level. Each edge of one face is infinitely sharp. `controls` has one value for each control
/// point of `table`, as many numbers for each. No common denominator of a limit point is above 2^63 - 1, nor its product with an amount in
/// the controls; [`denominator_bound`](crate::denominator_bound) finds a bound.
///
/// Errors: the least point without a limit mask (`Dart` or `SemiSharp`), then `TooManyEntries`. `Memory` may come at any time.
pub fn limit_points_of_quads<P: Primvar<L>, L: Ledger>(
    alloc: Global,
    level: &Level,
    table: &StencilTable,
    controls: &[P],
    steps: &mut Steps<L>,
) -> Result<Vec<Valued<P>>, QuadFault>
    requires quads { has_quads level.now.level ≡ true }
    requires boundary { IsTrue (has_sharp_boundary level.now.level) }
    requires each { length table.now.rows ≡ level.now.level.point_count }
    requires can { CanEvaluateMasks level.now.level (limit_masks level.now.level) table.now (map P.numbers controls.now) }
    ensures values { MatchResult result
        (λ values. AreLimitPoints level.now.level table.now (map P.numbers controls.now) (map (λ v. (P.numbers v.value, v.den)) values.items))
        (IsQuadFault level.now.level table.now) }
    ensures taken { OnOk result (steps.new ≡ steps.old + mask_entries level.now.level table.now (limit_masks level.now.level)) }
    ensures steps { steps.new ≤ steps.old + mask_entries level.now.level table.now (limit_masks level.now.level) }
    ensures later { steps.old ≤ steps.new }
{
    let masks = limit_masks(level)?;
    points_of_masks(alloc, table, &masks, controls, steps)
}
