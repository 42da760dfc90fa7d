//! The halves of all edges, or the fault of the refinement.

ghost use Rattle.std.specs.Prelude.{◌≡◌, ◌*◌, ◌^◌, ◌≤◌, length, map, MatchResult};
ghost use Rattle.std.specs.List.{sum_by};
ghost use Rattle.subdiv_model.specs.Edges.{edges_of};
ghost use Rattle.sharpness_rules.specs.View.{sharpness_of};
ghost use Rattle.uniform_refiner.specs.Put.{AreFineHalves};
ghost use Rattle.uniform_refiner.specs.Refined.{IsRefusal};

use crate::fault::RefineFault;
use child_slots::{AllPoints, HalfFault, put_all_halves};
use level_topology::Level;
use sharpness_rules::Sharpness;
use std::alloc::Global;

// Writes the halves of all edges, or reports the first point at which they overflow.
pub(crate) fn put_halves(
    alloc: Global,
    level: &Level,
    halves: &mut [Sharpness],
) -> Result<(), RefineFault>
    requires few { sum_by length level.now.level.polygons ≤ 2 ^ 22 }
    requires size { length halves.old ≡ 2 * length (edges_of level.now.level.polygons) }
    ensures { MatchResult result (λ _. AreFineHalves level.now (map sharpness_of halves.new)) (IsRefusal level.now) }
{
    match put_all_halves(alloc, level, &AllPoints, halves) {
        Ok(()) => Ok(()),
        Err(HalfFault::Chaikin(v)) => Err(RefineFault::Chaikin(v)),
        Err(HalfFault::Memory) => Err(RefineFault::Memory),
    }
}
