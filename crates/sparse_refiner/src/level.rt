//! The next sparse level, without the tables that connect it to its parent.

ghost use Rattle.std.specs.Prelude.{◌≡◌, ◌+◌, ◌≤◌, length, map, IfOk, OnOk};
ghost use Rattle.subdiv_model.specs.Polygons.{is_among};
ghost use Rattle.sharpness_rules.specs.View.{sharpness_of};
ghost use Rattle.child_slots.specs.HalfTable.{HasHalves};
ghost use Rattle.sparse_laws.specs.NextSparse.{has_all_faces};
ghost use Rattle.sparse_refiner.specs.Made.{ArePresent, IsNextLevel, points_in, selected_by};

use crate::part::part_level;
use crate::places::PresentPlaces;
use crate::shape::PartShape;
use child_slots::{no_edges, number_edges};
use level_topology::Level;
use ratio128::{Memory, Steps};
use sharpness_rules::Sharpness;
use sparse_level::{NumberedPoints, SparseLevel, mark_complete};
use std::alloc::Global;
use std::sync::ledger::Ledger;

// Returns a mark for each point: whether all its faces are present.
fn complete_marks(
    alloc: Global,
    sparse: &SparseLevel,
    present: &PresentPlaces,
    points: &NumberedPoints,
) -> Result<Vec<bool>, Memory>
    requires present { ArePresent sparse.now present.now }
    requires points { points.now ≡ points_in sparse.now.topology (selected_by present.now) }
    ensures { IfOk result (λ complete. complete.items ≡ map (has_all_faces sparse.now.topology.level (selected_by present.now)) points.now) }
{
    let level = sparse.level();
    level.facts();
    let complete = mark_complete(alloc, level, &present.on, points.points())?;
    Ok(complete)
}

/// Returns the next sparse level for these selected faces. Each new face is one step.
pub(crate) fn next_level<L: Ledger>(
    alloc: Global,
    sparse: &SparseLevel,
    present: &PresentPlaces,
    points: &NumberedPoints,
    halves: &[Sharpness],
    steps: &mut Steps<L>,
) -> Result<Level, Memory>
    requires present { ArePresent sparse.now present.now }
    requires points { points.now ≡ points_in sparse.now.topology (selected_by present.now) }
    requires halves { HasHalves sparse.now.topology.level (is_among points.now) (map sharpness_of halves.now) }
    ensures level { IfOk result (λ next. IsNextLevel sparse.now.topology (selected_by present.now) next) }
    ensures steps { steps.new ≤ steps.old + length present.now.places.items }
    ensures later { steps.old ≤ steps.new }
    ensures taken { OnOk result (steps.new ≡ steps.old + length present.now.places.items) }
{
    let level = sparse.level();
    sparse.facts();
    level.facts();
    let mut edges = no_edges(alloc, level)?;
    number_edges(level, &present.places, points, &mut edges)?;
    let complete = complete_marks(alloc, sparse, present, points)?;
    let shape = PartShape {
        level,
        places: &present.places,
        points,
        names: points.points(),
    };
    part_level(alloc, &shape, edges, halves, complete, steps)
}
