//! The level of a part of the next level, from its numbered edges.

ghost use Rattle.std.specs.Prelude.{◌≡◌, ◌+◌, ◌≤◌, ◌^◌, length, map, IfOk, OnOk};
ghost use Rattle.sharpness_rules.specs.View.{sharpness_of};
ghost use Rattle.subdiv_model.specs.Child.{child_level};
ghost use Rattle.part_laws.specs.LevelParts.{IsLevelPart};
ghost use Rattle.child_slots.specs.HalfTable.{HasHalves};
ghost use Rattle.child_slots.specs.Walked.{ArePartEdges};
ghost use Rattle.sparse_refiner.specs.Shapes.{AreMarks, AreNames, children_in, level_in, name_in, part_in};

use crate::shape::PartShape;
use crate::tables::tables_of;
use child_slots::{ChildPoints, SlotEdges};
use level_topology::Level;
use point_fans::{FaceParts, NumberedFaces};
use ratio128::{Memory, Steps};
use sharpness_rules::Sharpness;
use std::alloc::Global;
use std::sync::ledger::Ledger;

/// Returns the level of a part of the next level. `edges` are the numbered edges of the part, and `halves` has the sharpness
/// of each half at its slot.
///
/// The points have the order of `shape.names`. `complete` marks the points whose lists are in fan order: such a point has all
/// its faces of the whole next level, in one fan. An edge has the sharpness that it has in the whole next level, even if it
/// has one face in the part. Each face is one step. Reports `Memory` where memory runs out, and drops the edges and the
/// marks.
pub fn part_level<P: ChildPoints, L: Ledger>(
    alloc: Global,
    shape: &PartShape<P>,
    edges: SlotEdges,
    halves: &[Sharpness],
    complete: Vec<bool>,
    steps: &mut Steps<L>,
) -> Result<Level, Memory>
    requires edges { ArePartEdges (level_in shape.now) (part_in P.has P.number shape.now) edges }
    requires names { AreNames (P.has shape.now.points.now) (P.number shape.now.points.now) shape.now.names.now }
    requires halves { HasHalves (level_in shape.now) (P.has shape.now.points.now) (map sharpness_of halves.now) }
    requires marks { AreMarks (level_in shape.now) (children_in shape.now) shape.now.names.now complete.items }
    requires few { length shape.now.places.now ≤ 2 ^ 22 }
    ensures part { IfOk result (λ next. IsLevelPart (name_in shape.now.names.now) (children_in shape.now) next.level (child_level (level_in shape.now))) }
    ensures points { IfOk result (λ next. next.level.point_count ≡ length shape.now.names.now) }
    ensures complete { IfOk result (λ next. next.complete ≡ complete.items) }
    ensures steps { steps.new ≤ steps.old + length shape.now.places.now }
    ensures later { steps.old ≤ steps.new }
    ensures taken { OnOk result (steps.new ≡ steps.old + length shape.now.places.now) }
{
    shape.level.facts();
    let tables = tables_of(alloc, shape, &edges, halves, steps)?;
    let (edge_ends, edge_faces) = edges.into_parts();
    let parts = FaceParts {
        faces: tables.faces,
        holes: tables.holes,
        edge_ends,
        edge_faces,
        edge_sharpness: tables.edge_sharpness,
        vertex_sharpness: tables.vertex_sharpness,
        complete,
        method: shape.level.method(),
    };
    NumberedFaces::of(alloc, parts).finish()
}
