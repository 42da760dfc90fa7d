//! The next level, made from its numbered edges.

ghost use Rattle.std.specs.Prelude.{◌≡◌, ℕ, ◌+◌, ◌*◌, ◌^◌, ◌<◌, ◌≤◌, true, false, length, map, get_or, replicate, IfOk};
ghost use Rattle.std.specs.List.{sum_by};
ghost use Rattle.sharpness_rules.specs.View.{sharpness_of};
ghost use Rattle.subdiv_model.specs.Child.{child_level, child_points};
ghost use Rattle.level_topology.specs.Rows.{no_rows};
ghost use Rattle.uniform_refiner.specs.Put.{AreChildEdges};
ghost use Rattle.uniform_refiner.specs.Numbered.{IsNumbered, IsRefinable};
ghost use Rattle.uniform_refiner.specs.Points.{counts_for};

use crate::edges::put_edges;
use crate::faces::put_faces;
use crate::points::put_points;
use child_slots::SlotEdges;
use level_topology::{Level, LevelRows};
use ratio128::{Memory, Steps};
use sharpness_rules::Sharpness;
use std::alloc::Global;
use std::sync::ledger::Ledger;

// Returns memory for the next level with this many faces.
pub(crate) fn empty_rows(
    alloc: Global,
    level: &Level,
    faces: u32,
    edges: &SlotEdges,
) -> Result<LevelRows, Memory>
    requires edges { AreChildEdges level.now.level edges.now }
    requires faces { faces ≡ sum_by length level.now.level.polygons }
    requires refinable { IsRefinable level.now }
    ensures { IfOk result (λ rows. rows ≡ no_rows (counts_for level.now.level (length edges.now.ends)) level.now.level.method) }
{
    level.facts();
    let points = level.points() + level.faces() + level.edges();
    let corners = 4 * faces;
    let ends = 2 * edges.len();
    LevelRows::new(
        alloc,
        points,
        edges.len(),
        faces,
        corners,
        corners,
        ends,
        level.method(),
    )
}

// Makes the next level in reserved memory. Each of its faces is one step.
pub(crate) fn put_level<L: Ledger>(
    alloc: Global,
    level: &Level,
    edges: &SlotEdges,
    halves: &[Sharpness],
    empty: LevelRows,
    steps: &mut Steps<L>,
) -> Result<Level, Memory>
    requires numbered { IsNumbered level.now edges.now (map sharpness_of halves.now) }
    requires empty { empty ≡ no_rows (counts_for level.now.level (length edges.now.ends)) level.now.level.method }
    ensures level { IfOk result (λ next. next.level ≡ child_level level.now.level) }
    ensures complete { IfOk result (λ next. next.complete ≡ replicate (child_points level.now.level.point_count level.now.level.polygons) true) }
    ensures steps { steps.new ≡ steps.old + sum_by length level.now.level.polygons }
{
    level.facts();
    let mut rows = empty;
    put_faces(level, edges, &mut rows, steps);
    put_edges(level, edges, halves, &mut rows);
    put_points(alloc, level, edges, &mut rows)?;
    Ok(rows.finish())
}
