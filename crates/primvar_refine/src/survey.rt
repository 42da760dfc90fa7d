//! The survey of a step of values.

ghost use Rattle.std.specs.Prelude.{◌≡◌, length};
ghost use Rattle.mask_rules.specs.View.{scheme_of};
ghost use Rattle.child_masks.specs.Masks.{CanRefine};
ghost use Rattle.primvar_refine.specs.Rows.{AreGood};
ghost use Rattle.primvar_refine.specs.View.{rows_of};
ghost use Rattle.primvar_refine.specs.Step.{IsFaultOfStep, IsStepSurvey};

use crate::Valued;
use crate::dens::denominators;
use crate::fault::ValueFault;
use child_masks::{Survey, SurveyFault, survey_over};
use level_topology::{Child, Level};
use mask_rules::Scheme;
use ratio128::Primvar;
use std::alloc::Global;
use std::sync::ledger::Ledger;

// Returns the fault of a step whose survey has one.
fn value_fault(fault: SurveyFault) -> ValueFault
    ensures { IsFaultOfStep fault result }
{
    match fault {
        SurveyFault::Transition(v) => ValueFault::Transition(v),
        SurveyFault::Denominator(p) => ValueFault::Denominator(p),
        SurveyFault::Memory => ValueFault::Memory,
    }
}

/// Returns the survey of a step, or its first fault other than `TooBig`.
pub(crate) fn survey_step<P: Primvar<L>, L: Ledger>(
    alloc: Global,
    parent: &Level,
    child: &Child,
    values: &[Valued<P>],
    scheme: Scheme,
) -> Result<Survey, ValueFault>
    requires child { CanRefine parent.now child.now (scheme_of scheme) }
    requires each { length values.now ≡ parent.now.level.point_count }
    requires good { AreGood (rows_of P.numbers values.now) }
    ensures { IsStepSurvey parent.now (scheme_of scheme) child.now.origins (rows_of P.numbers values.now) result }
{
    let dens = denominators(alloc, values)?;
    survey_over(alloc, parent, child, &dens, scheme).map_err(value_fault)
}
