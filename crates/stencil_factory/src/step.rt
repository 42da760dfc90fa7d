//! Composes the table of a refinement step.

ghost use Rattle.std.specs.Prelude.{◌≡◌, ◌≤◌, length};
ghost use Rattle.subdiv_model.specs.Channel.{entry_bound};
ghost use Rattle.mask_rules.specs.View.{scheme_of};
ghost use Rattle.child_masks.specs.Masks.{CanRefine};
ghost use Rattle.child_masks.specs.Survey.{IsSurvey};
ghost use Rattle.stencil_factory.specs.Rows.{dens_of};
ghost use Rattle.stencil_factory.specs.Composed.{IsFaultOfRows, IsFaultOfSurvey, IsTableComposition};

use crate::child_rows::ChildRows;
use crate::compose::compose_rows;
use crate::fault::TableFault;
use crate::row_fault::RowFault;
use child_masks::{Survey, SurveyFault, survey_over};
use level_topology::{Child, Level};
use mask_rules::Scheme;
use ratio128::limits::ENTRY_BOUND;
use std::alloc::Global;
use stencil_apply::StencilTable;

// Translates a fault of the survey.
fn table_fault(fault: SurveyFault) -> TableFault
    ensures { IsFaultOfSurvey fault result }
{
    match fault {
        SurveyFault::Transition(point) => TableFault::Transition { point },
        SurveyFault::Denominator(point) => TableFault::Denominator { point },
        SurveyFault::Memory => TableFault::Memory,
    }
}

// Translates a fault of the rows. Row `p` is point `p` of the child.
fn fault_of_rows(fault: RowFault) -> TableFault
    ensures { IsFaultOfRows fault result }
{
    match fault {
        RowFault::Denominator { row } => TableFault::Denominator { point: row },
        RowFault::TooManyEntries => TableFault::TooManyEntries,
        RowFault::Memory => TableFault::Memory,
    }
}

// Returns the capacity to start with: 16 entries a row, or `controls` if that is fewer, at most 2^27 in all. In a mesh of quads with
// four edges at each vertex a point depends on at most 16 control points.
fn capacity_for(rows: u32, controls: u32) -> u64
    ensures { result ≤ entry_bound }
{
    (u64::from(rows) * u64::from(controls.min(16))).min(ENTRY_BOUND)
}

// Returns the table of a step whose survey found no fault.
fn compose_surveyed(
    alloc: Global,
    table: &StencilTable,
    parent: &Level,
    child: &Child,
    scheme: Scheme,
    survey: &Survey,
) -> Result<StencilTable, TableFault>
    requires child { CanRefine parent.now child.now (scheme_of scheme) }
    requires each { length table.now.rows ≡ parent.now.level.point_count }
    requires survey { IsSurvey parent.now (scheme_of scheme) child.now.origins (dens_of table.now) survey.now }
    ensures { IsTableComposition parent.now.level (scheme_of scheme) child.now.origins table.now result }
{
    parent.facts();
    child.facts();
    table.facts();
    let rows = ChildRows {
        parent,
        child,
        scheme,
        survey,
    };
    let capacity = capacity_for(child.level().points(), table.controls());
    match compose_rows(alloc, table, &rows, &survey.dens, capacity) {
        Ok(composed) => Ok(composed),
        Err(fault) => Err(fault_of_rows(fault)),
    }
}

/// Returns the table of the points of `child`, one row for each point, over the control points of `table`.
///
/// `table` has one row for each point of `parent`. A new row gives the control points that its point depends on, ascending, over
/// the point's common denominator.
///
/// `child` is a child of `parent`. Each vertex with a child point is complete. Under Catmull and Clark's scheme each edge with a
/// child point has two faces or a sharpness of at least 1. At a vertex with a child point each edge of one face is then
/// infinitely sharp, and no half of an edge overflows.
///
/// The errors are those of [`TableFault`], checked in the order of its variants.
///
/// The table starts with memory for at most 16 entries a row. If the rows need more, this counts all entries before the table grows.
pub fn compose_level(
    alloc: Global,
    table: &StencilTable,
    parent: &Level,
    child: &Child,
    scheme: Scheme,
) -> Result<StencilTable, TableFault>
    requires child { CanRefine parent.now child.now (scheme_of scheme) }
    requires each { length table.now.rows ≡ parent.now.level.point_count }
    ensures { IsTableComposition parent.now.level (scheme_of scheme) child.now.origins table.now result }
{
    parent.facts();
    child.facts();
    table.facts();
    match survey_over(alloc, parent, child, table.denominators(), scheme) {
        Ok(survey) => compose_surveyed(alloc, table, parent, child, scheme, &survey),
        Err(fault) => Err(table_fault(fault)),
    }
}
