//! The next sparse level.

ghost use Rattle.std.specs.Prelude.{◌≡◌, ◌+◌, ◌^◌, ◌<◌, ◌≤◌, length, map, IfOk, OnOk, MatchResult};
ghost use Rattle.subdiv_model.specs.Polygons.{is_among};
ghost use Rattle.feature_select.specs.Rule.{AnswersTest};
ghost use Rattle.sharpness_rules.specs.View.{sharpness_of};
ghost use Rattle.child_slots.specs.HalfTable.{HasHalves};
ghost use Rattle.sparse_refiner.specs.Made.{ArePresent, IsMade, IsMadeRefusal, IsNextStep, points_in, selected_by};
ghost use Rattle.sparse_refiner.specs.Refined.{IsNextOf, IsRefined, IsRefusal, SparseOf, places_for};

use crate::halves::halves_at;
use crate::level::next_level;
use crate::places::{PresentPlaces, find_places};
use crate::step::step_of;
use feature_select::{FaceTest, SelectRule};
use level_topology::FaceFacts;
use ratio128::{Memory, Steps};
use sharpness_rules::Sharpness;
use sparse_level::{NumberedPoints, SparseLevel, SparseStep, number_points, select_faces};
use std::alloc::Global;
use std::sync::ledger::Ledger;
use uniform_refiner::RefineFault;

// Returns the step to the next level of these places and points; `halves` has the sharpness of the halves of edges.
fn refine_halved<L: Ledger>(
    alloc: Global,
    sparse: &SparseLevel,
    present: PresentPlaces,
    points: &NumberedPoints,
    halves: &[Sharpness],
    steps: &mut Steps<L>,
) -> Result<SparseStep, Memory>
    requires depth { sparse.now.depth < 10 }
    requires present { ArePresent sparse.now present }
    requires points { points.now ≡ points_in sparse.now.topology (selected_by present) }
    requires halves { HasHalves sparse.now.topology.level (is_among points.now) (map sharpness_of halves.now) }
    ensures step { IfOk result (IsNextStep sparse.now (selected_by present)) }
    ensures selected { IfOk result (λ step. step.selected ≡ present.selected.items) }
    ensures steps { steps.new ≤ steps.old + length present.places.items }
    ensures later { steps.old ≤ steps.new }
    ensures taken { OnOk result (steps.new ≡ steps.old + length present.places.items) }
{
    let next = next_level(alloc, sparse, &present, points, halves, steps)?;
    step_of(alloc, sparse, present, points, next)
}

// Returns the step to the next level of these places and points.
fn refine_numbered<L: Ledger>(
    alloc: Global,
    sparse: &SparseLevel,
    present: PresentPlaces,
    points: &NumberedPoints,
    steps: &mut Steps<L>,
) -> Result<SparseStep, RefineFault>
    requires depth { sparse.now.depth < 10 }
    requires present { ArePresent sparse.now present }
    requires points { points.now ≡ points_in sparse.now.topology (selected_by present) }
    ensures made { MatchResult result (IsMade sparse.now (selected_by present)) (IsMadeRefusal sparse.now.topology (selected_by present)) }
    ensures selected { IfOk result (λ step. step.selected ≡ present.selected.items) }
    ensures steps { steps.new ≤ steps.old + length present.places.items }
    ensures later { steps.old ≤ steps.new }
    ensures taken { OnOk result (steps.new ≡ steps.old + length present.places.items) }
{
    sparse.level().facts();
    let halves = halves_at(alloc, sparse.level(), points)?;
    let step = refine_halved(alloc, sparse, present, points, &halves, steps)?;
    Ok(step)
}

// Returns the step to the next level of these places.
fn refine_present<L: Ledger>(
    alloc: Global,
    sparse: &SparseLevel,
    present: PresentPlaces,
    steps: &mut Steps<L>,
) -> Result<SparseStep, RefineFault>
    requires depth { sparse.now.depth < 10 }
    requires present { ArePresent sparse.now present }
    ensures made { MatchResult result (IsMade sparse.now (selected_by present)) (IsMadeRefusal sparse.now.topology (selected_by present)) }
    ensures selected { IfOk result (λ step. step.selected ≡ present.selected.items) }
    ensures steps { steps.new ≤ steps.old + length present.places.items }
    ensures later { steps.old ≤ steps.new }
    ensures taken { OnOk result (steps.new ≡ steps.old + length present.places.items) }
{
    sparse.level().facts();
    let points = number_points(alloc, sparse.level(), &present.places)?;
    refine_numbered(alloc, sparse, present, &points, steps)
}

/// Returns the next sparse level: the child face of each corner whose vertex lies on a face that the rule selects. The call
/// applies the rule only to inner faces. Points are numbered as the faces name them first. Each new face is one step.
///
/// Reports `TooLarge` with the number of new faces, before it makes anything, where that is more than 2^22. Reports `Chaikin`
/// with the least vertex on a selected face, counted from 0, at which halves of edges overflow. Reports `Memory` where memory
/// runs out.
pub fn refine_selected<T: FaceTest, F: Fn(&FaceFacts) -> bool, L: Ledger>(
    alloc: Global,
    sparse: &SparseLevel,
    chosen: &SelectRule<T, F>,
    steps: &mut Steps<L>,
) -> Result<SparseStep, RefineFault>
    requires depth { sparse.now.depth < 10 }
    requires answers { AnswersTest F.Fn chosen.now.0 (T.meets chosen.now.1) }
    ensures refined { MatchResult result (IsRefined (T.meets chosen.now.1) sparse.now) (IsRefusal (T.meets chosen.now.1) sparse.now) }
    ensures sparse { (of : SparseOf (T.meets chosen.now.1) sparse.now) → IfOk result (IsNextOf of) }
    ensures steps { steps.new ≤ steps.old + length (places_for (T.meets chosen.now.1) sparse.now) }
    ensures later { steps.old ≤ steps.new }
    ensures taken { OnOk result (steps.new ≡ steps.old + length (places_for (T.meets chosen.now.1) sparse.now)) }
    ensures early { 2 ^ 22 < length (places_for (T.meets chosen.now.1) sparse.now) → steps.new ≡ steps.old }
{
    sparse.level().facts();
    let selected = select_faces(alloc, sparse, chosen)?;
    let present = find_places(alloc, sparse, selected)?;
    refine_present(alloc, sparse, present, steps)
}
