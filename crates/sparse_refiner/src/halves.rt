//! The sharpness of the halves of edges, at the vertices that have a child point.

ghost use Rattle.std.specs.Prelude.{◌≡◌, ◌*◌, length, map, MatchResult};
ghost use Rattle.subdiv_model.specs.Edges.{edges_of};
ghost use Rattle.subdiv_model.specs.Polygons.{is_among};
ghost use Rattle.sharpness_rules.specs.View.{sharpness_of};
ghost use Rattle.child_slots.specs.HalfTable.{AreAllHalves};
ghost use Rattle.sparse_refiner.specs.Made.{IsHalvesFault};

use child_slots::{HalfFault, half_table, put_all_halves};
use level_topology::Level;
use sharpness_rules::Sharpness;
use sparse_level::NumberedPoints;
use std::alloc::Global;
use uniform_refiner::RefineFault;

// Writes the halves of the edges at vertices that have a child point, or reports the least such vertex at which they
// overflow.
fn put_halves(
    alloc: Global,
    level: &Level,
    points: &NumberedPoints,
    halves: &mut [Sharpness],
) -> Result<(), RefineFault>
    requires { length halves.old ≡ 2 * length (edges_of level.now.level.polygons) }
    ensures { MatchResult result (λ _. AreAllHalves level.now (is_among points.now) (map sharpness_of halves.new)) (IsHalvesFault level.now points.now) }
{
    match put_all_halves(alloc, level, points, halves) {
        Ok(()) => Ok(()),
        Err(HalfFault::Chaikin(v)) => Err(RefineFault::Chaikin(v)),
        Err(HalfFault::Memory) => Err(RefineFault::Memory),
    }
}

/// Returns the sharpness of the half of each edge at each vertex that has a child point. Reports `Chaikin` with the least
/// such vertex at which halves overflow.
pub(crate) fn halves_at(
    alloc: Global,
    level: &Level,
    points: &NumberedPoints,
) -> Result<Vec<Sharpness>, RefineFault>
    ensures { MatchResult result (λ halves. AreAllHalves level.now (is_among points.now) (map sharpness_of halves.items)) (IsHalvesFault level.now points.now) }
{
    let mut halves = half_table(alloc, level)?;
    put_halves(alloc, level, points, &mut halves)?;
    Ok(halves)
}
