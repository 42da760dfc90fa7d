//! The tables of a part of the next level.

ghost use Rattle.std.specs.Prelude.{◌≡◌, ◌+◌, ◌≤◌, ◌^◌, length, map, IfOk, OnOk};
ghost use Rattle.sharpness_rules.specs.View.{sharpness_of};
ghost use Rattle.child_slots.specs.Walked.{ArePartEdges};
ghost use Rattle.sparse_refiner.specs.Shapes.{level_in, part_in};
ghost use Rattle.sparse_refiner.specs.Tables.{ArePartTables};

use crate::edges::edge_sharpness;
use crate::faces::{faces_of, hole_marks};
use crate::points::vertex_sharpness;
use crate::shape::PartShape;
use child_slots::{ChildPoints, SlotEdges};
use level_topology::PackedLists;
use ratio128::{Memory, Steps};
use sharpness_rules::Sharpness;
use std::alloc::Global;
use std::sync::ledger::Ledger;

// The faces of a part with the numbers of their edges, its holes, and the sharpness of its edges and points.
#[derive(Drop)]
pub(crate) struct PartTables {
    pub(crate) faces: PackedLists<u32>,
    pub(crate) holes: Vec<bool>,
    pub(crate) edge_sharpness: Vec<Sharpness>,
    pub(crate) vertex_sharpness: Vec<Sharpness>,
}

// Returns the tables of a part. Each face is one step.
pub(crate) fn tables_of<P: ChildPoints, L: Ledger>(
    alloc: Global,
    shape: &PartShape<P>,
    edges: &SlotEdges,
    halves: &[Sharpness],
    steps: &mut Steps<L>,
) -> Result<PartTables, Memory>
    requires edges { ArePartEdges (level_in shape.now) (part_in P.has P.number shape.now) edges.now }
    requires few { length shape.now.places.now ≤ 2 ^ 22 }
    ensures tables { IfOk result (ArePartTables (level_in shape.now) (part_in P.has P.number shape.now) edges.now.slots shape.now.names.now (map sharpness_of halves.now)) }
    ensures steps { steps.new ≤ steps.old + length shape.now.places.now }
    ensures later { steps.old ≤ steps.new }
    ensures taken { OnOk result (steps.new ≡ steps.old + length shape.now.places.now) }
{
    let holes = hole_marks(alloc, shape.level, shape.places)?;
    let edge_sharpness = edge_sharpness(alloc, edges, halves)?;
    let vertex_sharpness = vertex_sharpness(alloc, shape.level, shape.names)?;
    let faces = faces_of(alloc, shape, edges, steps)?;
    Ok(PartTables {
        faces,
        holes,
        edge_sharpness,
        vertex_sharpness,
    })
}
