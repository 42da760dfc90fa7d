//! The child faces, with their edges.

ghost use Rattle.std.specs.Prelude.{◌≡◌, ◌+◌, ◌*◌, ◌<◌, true, false, length, get_or};
ghost use Rattle.std.specs.List.{All, sum_by};
ghost use Rattle.subdiv_model.specs.Polygons.{polygon_at, is_among};
ghost use Rattle.child_slots.specs.Slots.{first_child};
ghost use Rattle.uniform_refiner.specs.Put.{AreChildEdges, four_numbers, with_children};

use child_slots::{SlotEdges, child_corners, side_slots};
use level_topology::{Level, LevelRows};
use ratio128::Steps;
use std::sync::ledger::Ledger;

// Returns the numbers of the edges with these slots.
fn numbers_of(edges: &SlotEdges, slots: [u32; 4]) -> [u32; 4]
    requires slots { All (λ slot. slot < edges.now.count) slots }
    requires there { All (λ slot. is_among edges.now.slots slot ≡ true) slots }
    ensures { result ≡ four_numbers edges.now.slots slots }
{
    [
        edges.number(slots[0]),
        edges.number(slots[1]),
        edges.number(slots[2]),
        edges.number(slots[3]),
    ]
}

// Returns whether a child face is a hole, which it is where its parent is one.
fn is_child_hole(level: &Level, f: u32) -> bool
    requires { f < length level.now.level.polygons }
    ensures { result ≡ get_or level.now.level.holes f false }
{
    level.is_hole(f)
}

// Adds the child faces of a face. Each is one step.
fn put_children<L: Ledger>(
    level: &Level,
    edges: &SlotEdges,
    f: u32,
    rows: &mut LevelRows,
    steps: &mut Steps<L>,
)
    requires face { f < length level.now.level.polygons }
    requires edges { AreChildEdges level.now.level edges.now }
    requires faces { rows.old.counts.faces ≡ sum_by length level.now.level.polygons }
    requires corners { rows.old.counts.corners ≡ 4 * sum_by length level.now.level.polygons }
    requires before { rows.old ≡ with_children level.now.level (first_child level.now.level.polygons f) rows.old }
    ensures put { rows.new ≡ with_children level.now.level (first_child level.now.level.polygons (f + 1)) rows.old }
    ensures steps { steps.new ≡ steps.old + length (polygon_at level.now.level.polygons f) }
{
    level.facts();
    let hole = is_child_hole(level, f);
    for c in 0..level.face_vertices(f).len() {
        let corners = child_corners(level, f, c);
        let numbers = numbers_of(edges, side_slots(level, f, c));
        rows.put_face(&corners, &numbers, hole, steps);
    }
}

// Adds all child faces.
pub(crate) fn put_faces<L: Ledger>(
    level: &Level,
    edges: &SlotEdges,
    rows: &mut LevelRows,
    steps: &mut Steps<L>,
)
    requires edges { AreChildEdges level.now.level edges.now }
    requires faces { rows.old.counts.faces ≡ sum_by length level.now.level.polygons }
    requires corners { rows.old.counts.corners ≡ 4 * sum_by length level.now.level.polygons }
    requires none { rows.old ≡ with_children level.now.level 0 rows.old }
    ensures put { rows.new ≡ with_children level.now.level (sum_by length level.now.level.polygons) rows.old }
    ensures steps { steps.new ≡ steps.old + sum_by length level.now.level.polygons }
{
    for f in 0..level.faces() {
        put_children(level, edges, f, rows, steps);
    }
}
