//! The values of the written points of sparse levels.

ghost use Rattle.std.specs.Prelude.{◌≡◌, ◌+◌, ◌≤◌, [], ◌∷◌, ◌++◌, length, map, Err, IfOk, IsOkAnd, MatchResult, OnOk};
ghost use Rattle.channel_refine.specs.SparseComposed.{CanValue, CanValueAll, kept_order, valued, valued_level, valued_entries, valued_from, entries_in};
ghost use Rattle.channel_refine.specs.SparseView.{sparse_rows, all_rows};

use crate::evaluated::evaluate;
use crate::sparse_rows::evaluate_rows;
use primvar_refine::Valued;
use ratio128::{Memory, Primvar, Steps};
use sparse_level::{SparseFaces, SparseValues};
use sparse_walk::KeptLevel;
use std::alloc::Global;
use std::sync::ledger::Ledger;
use stencil_apply::StencilTable;

// Returns faces with the values of their points, or the error of the values.
fn with_faces<P>(
    faces: SparseFaces,
    values: Result<Vec<Valued<P>>, Memory>,
) -> Result<SparseValues<P>, Memory>
    ensures { MatchResult values
        (λ found. IsOkAnd result (λ level. level ≡ record { faces = faces; values = found }))
        (λ fault. result ≡ Err fault) }
{
    values.map(|values| SparseValues { faces, values })
}

// Returns level 0 with the values of its written points.
fn first_values<P: Primvar<L>, L: Ledger>(
    alloc: Global,
    level: KeptLevel<StencilTable>,
    order: &[u32],
    controls: &[P],
    steps: &mut Steps<L>,
) -> Result<SparseValues<P>, Memory>
    requires { CanValue (map P.numbers controls.now) order.now level }
    ensures values { IfOk result (λ made. sparse_rows P.numbers made ≡ valued (map P.numbers controls.now) order.now level) }
    ensures steps { steps.new ≤ steps.old + valued_entries order.now level }
    ensures later { steps.old ≤ steps.new }
{
    let KeptLevel { faces, carried } = level;
    let values = evaluate_rows(alloc, &carried, order, controls, steps);
    with_faces(faces, values)
}

// Returns a later level with the values of all its points.
fn later_values<P: Primvar<L>, L: Ledger>(
    alloc: Global,
    level: KeptLevel<StencilTable>,
    controls: &[P],
    steps: &mut Steps<L>,
) -> Result<SparseValues<P>, Memory>
    requires { CanValue (map P.numbers controls.now) (kept_order [] 1 level) level }
    ensures values { IfOk result (λ made. sparse_rows P.numbers made ≡ valued (map P.numbers controls.now) (kept_order [] 1 level) level) }
    ensures steps { steps.new ≤ steps.old + valued_entries (kept_order [] 1 level) level }
    ensures later { steps.old ≤ steps.new }
{
    let KeptLevel { faces, carried } = level;
    let values = evaluate(alloc, &carried, controls, steps);
    with_faces(faces, values)
}

// Returns a level with the values of its written points. `before` levels come before it, and `first` lists the written points of level 0.
fn level_values<P: Primvar<L>, L: Ledger>(
    alloc: Global,
    level: KeptLevel<StencilTable>,
    before: usize,
    first: &[u32],
    controls: &[P],
    steps: &mut Steps<L>,
) -> Result<SparseValues<P>, Memory>
    requires { CanValue (map P.numbers controls.now) (kept_order first.now before level) level }
    ensures values { IfOk result (λ made. sparse_rows P.numbers made ≡ valued_level (map P.numbers controls.now) first.now before level) }
    ensures steps { steps.new ≤ steps.old + valued_entries (kept_order first.now before level) level }
    ensures later { steps.old ≤ steps.new }
{
    if before == 0 {
        first_values(alloc, level, first, controls, steps)
    } else {
        later_values(alloc, level, controls, steps)
    }
}

// Adds a level with the values of its written points.
fn push_values<P: Primvar<L>, L: Ledger>(
    alloc: Global,
    level: KeptLevel<StencilTable>,
    made: &mut Vec<SparseValues<P>>,
    first: &[u32],
    controls: &[P],
    steps: &mut Steps<L>,
) -> Result<(), Memory>
    requires { CanValue (map P.numbers controls.now) (kept_order first.now (length made.old.items) level) level }
    ensures values { OnOk result (all_rows P.numbers made.new.items ≡ all_rows P.numbers made.old.items ++ valued_level (map P.numbers controls.now) first.now (length made.old.items) level ∷ []) }
    ensures count { OnOk result (length made.new.items ≡ length made.old.items + 1) }
    ensures steps { steps.new ≤ steps.old + valued_entries (kept_order first.now (length made.old.items) level) level }
    ensures later { steps.old ≤ steps.new }
{
    let before = made.len();
    let value = level_values(alloc, level, before, first, controls, steps)?;
    made.push(value)?;
    Ok(())
}

// Returns all levels with the values of their written points. `first` lists the written points of level 0.
pub(crate) fn all_values<P: Primvar<L>, L: Ledger>(
    alloc: Global,
    kept: Vec<KeptLevel<StencilTable>>,
    first: &[u32],
    controls: &[P],
    steps: &mut Steps<L>,
) -> Result<Vec<SparseValues<P>>, Memory>
    requires { CanValueAll (map P.numbers controls.now) first.now kept.items }
    ensures values { IfOk result (λ levels. all_rows P.numbers levels.items ≡ valued_from (map P.numbers controls.now) first.now 0 kept.items) }
    ensures steps { steps.new ≤ steps.old + entries_in first.now 0 kept.items }
    ensures later { steps.old ≤ steps.new }
{
    let mut levels = Vec::with_capacity(alloc, kept.len())?;
    for level in kept {
        push_values(alloc, level, &mut levels, first, controls, steps)?;
    }
    Ok(levels)
}
