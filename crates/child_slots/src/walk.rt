//! One walk over the faces of a part of the next level, which numbers their edges.

ghost use Rattle.std.specs.Prelude.{◌≡◌, ◌+◌, ◌<◌, true, map, length, IfOk, OnOk};
ghost use Rattle.std.specs.List.{All};
ghost use Rattle.level_topology.specs.ChildTables.{place_of};
ghost use Rattle.child_slots.specs.Slots.{slot_count};
ghost use Rattle.child_slots.specs.Parts.{IsPart, part};
ghost use Rattle.child_slots.specs.Slotted.{no_slots};
ghost use Rattle.child_slots.specs.Walked.{ArePartEdges};

use crate::corners::{child_corners, first_child_of, side_slots};
use crate::numbering::SlotEdges;
use crate::points::ChildPoints;
use level_topology::{FacePlace, Level};
use ratio128::Memory;
use std::alloc::Global;

// Returns the corners of a child face by their numbers in a part.
fn numbers_of<P: ChildPoints>(points: &P, quad: [u32; 4]) -> [u32; 4]
    requires { All (λ n. P.has points.now n ≡ true) quad }
    ensures { result ≡ map (P.number points.now) quad }
{
    [
        points.number_of(quad[0]),
        points.number_of(quad[1]),
        points.number_of(quad[2]),
        points.number_of(quad[3]),
    ]
}

/// Returns no edges, with a table for all slots of a level. Reports `Memory` where memory runs out.
pub fn no_edges(alloc: Global, level: &Level) -> Result<SlotEdges, Memory>
    ensures { IfOk result (λ edges. edges ≡ no_slots (slot_count level.now.level.polygons)) }
{
    level.facts();
    let count = 2 * level.edges() + first_child_of(level, level.faces());
    SlotEdges::with_table(alloc, count)
}

/// Numbers the edges of a part of the next level as its faces name them first. Each place is a face and a corner of the
/// level; the places ascend.
///
/// Reports `Memory` where memory runs out. Some of the edges are numbered then.
pub fn number_edges<P: ChildPoints>(
    level: &Level,
    places: &[FacePlace],
    points: &P,
    edges: &mut SlotEdges,
) -> Result<(), Memory>
    requires part { IsPart level.now.level.point_count level.now.level.polygons (part (map place_of places.now) (P.has points.now) (P.number points.now)) }
    requires none { edges.old ≡ no_slots (slot_count level.now.level.polygons) }
    ensures { OnOk result (ArePartEdges level.now.level (part (map place_of places.now) (P.has points.now) (P.number points.now)) edges.new) }
{
    level.facts();
    for i in 0..places.len() {
        let place = places[i];
        let corner = place.corner as usize;
        let slots = side_slots(level, place.face, corner);
        let quad = child_corners(level, place.face, corner);
        edges.add_quad(slots, numbers_of(points, quad), i as u32)?;
    }
    Ok(())
}
