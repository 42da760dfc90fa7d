//! The faces of a part, with the numbers of their edges and their marks.

ghost use Rattle.std.specs.Prelude.{◌≡◌, ◌+◌, ◌<◌, ◌≤◌, ◌^◌, true, length, map, IfOk, OnOk};
ghost use Rattle.std.specs.List.{All};
ghost use Rattle.subdiv_model.specs.Polygons.{is_among};
ghost use Rattle.level_topology.specs.ChildTables.{place_of};
ghost use Rattle.child_slots.specs.Walked.{ArePartEdges};
ghost use Rattle.sparse_refiner.specs.Shapes.{level_in, part_in};
ghost use Rattle.sparse_refiner.specs.Tables.{first_faces, hole_at, side_numbers};

use crate::shape::PartShape;
use child_slots::{ChildPoints, SlotEdges, child_corners, side_slots};
use level_topology::{FacePlace, Level, PackedLists};
use ratio128::{Memory, Steps};
use std::alloc::Global;
use std::sync::ledger::Ledger;

// Returns the corners of a child face by their numbers in the part.
fn part_corners<P: ChildPoints>(points: &P, quad: [u32; 4]) -> [u32; 4]
    requires { All (λ n. P.has points.now n ≡ true) quad }
    ensures { result ≡ map (P.number points.now) quad }
{
    [
        points.number_of(quad[0]),
        points.number_of(quad[1]),
        points.number_of(quad[2]),
        points.number_of(quad[3]),
    ]
}

// Returns the numbers of the edges with these slots.
fn edge_numbers(edges: &SlotEdges, slots: [u32; 4]) -> [u32; 4]
    requires slots { All (λ slot. slot < edges.now.count) slots }
    requires there { All (λ slot. is_among edges.now.slots slot ≡ true) slots }
    ensures { result ≡ side_numbers edges.now.slots slots }
{
    [
        edges.number(slots[0]),
        edges.number(slots[1]),
        edges.number(slots[2]),
        edges.number(slots[3]),
    ]
}

// Adds the faces with the numbers of their edges. Each face is one step.
fn put_faces<P: ChildPoints, L: Ledger>(
    shape: &PartShape<P>,
    edges: &SlotEdges,
    faces: &mut PackedLists<u32>,
    steps: &mut Steps<L>,
)
    requires edges { ArePartEdges (level_in shape.now) (part_in P.has P.number shape.now) edges.now }
    requires none { faces.old ≡ first_faces (level_in shape.now) (part_in P.has P.number shape.now) 0 }
    ensures put { faces.new ≡ first_faces (level_in shape.now) (part_in P.has P.number shape.now) (length shape.now.places.now) }
    ensures steps { steps.new ≡ steps.old + length shape.now.places.now }
{
    shape.level.facts();
    for i in 0..shape.places.len() {
        let place = shape.places[i];
        let corner = place.corner as usize;
        let slots = side_slots(shape.level, place.face, corner);
        let quad = child_corners(shape.level, place.face, corner);
        faces.push(
            &part_corners(shape.points, quad),
            &edge_numbers(edges, slots),
        );
        steps.tick();
    }
}

// Returns the faces with the numbers of their edges. Each face is one step.
pub(crate) fn faces_of<P: ChildPoints, L: Ledger>(
    alloc: Global,
    shape: &PartShape<P>,
    edges: &SlotEdges,
    steps: &mut Steps<L>,
) -> Result<PackedLists<u32>, Memory>
    requires edges { ArePartEdges (level_in shape.now) (part_in P.has P.number shape.now) edges.now }
    requires few { length shape.now.places.now ≤ 2 ^ 22 }
    ensures put { IfOk result (λ faces. faces ≡ first_faces (level_in shape.now) (part_in P.has P.number shape.now) (length shape.now.places.now)) }
    ensures steps { steps.new ≤ steps.old + length shape.now.places.now }
    ensures later { steps.old ≤ steps.new }
    ensures taken { OnOk result (steps.new ≡ steps.old + length shape.now.places.now) }
{
    let count = shape.places.len() as u32;
    let mut faces = PackedLists::with_limits(alloc, count, 4 * count)?;
    put_faces(shape, edges, &mut faces, steps);
    Ok(faces)
}

// Returns whether a child face is a hole, which it is where its parent is one.
fn is_child_hole(level: &Level, f: u32) -> bool
    requires { f < length level.now.level.polygons }
    ensures { result ≡ hole_at level.now.level (f, 0) }
{
    level.is_hole(f)
}

// Returns for each child face whether it is a hole.
pub(crate) fn hole_marks(
    alloc: Global,
    level: &Level,
    places: &[FacePlace],
) -> Result<Vec<bool>, Memory>
    requires { All (λ place. place.face < length level.now.level.polygons) places.now }
    ensures { IfOk result (λ holes. holes.items ≡ map (hole_at level.now.level) (map place_of places.now)) }
{
    let mut holes = Vec::with_capacity(alloc, places.len())?;
    for i in 0..places.len() {
        holes.push(is_child_hole(level, places[i].face))?;
    }
    Ok(holes)
}
