//! The numbers of the edges of the next level.

ghost use Rattle.std.specs.Prelude.{◌≡◌, map, OnOk};
ghost use Rattle.level_topology.specs.ChildTables.{place_of};
ghost use Rattle.child_slots.specs.Slots.{slot_count};
ghost use Rattle.child_slots.specs.Slotted.{no_slots};
ghost use Rattle.uniform_refiner.specs.Uniform.{all_places};
ghost use Rattle.uniform_refiner.specs.Put.{AreChildEdges};

use child_slots::{AllPoints, SlotEdges, number_edges};
use level_topology::{FacePlace, Level};
use ratio128::Memory;

// Numbers the edges of the next level, whose faces have these places. `edges` must be empty.
pub(crate) fn number_all(
    level: &Level,
    places: &[FacePlace],
    edges: &mut SlotEdges,
) -> Result<(), Memory>
    requires places { map place_of places.now ≡ all_places 0 level.now.level.polygons }
    requires none { edges.old ≡ no_slots (slot_count level.now.level.polygons) }
    ensures { OnOk result (AreChildEdges level.now.level edges.new) }
{
    number_edges(level, places, &AllPoints, edges)
}
