//! One step of values.

ghost use Rattle.std.specs.Prelude.{◌≡◌, ◌+◌, ◌≤◌, length, OnOk};
ghost use Rattle.mask_rules.specs.View.{scheme_of};
ghost use Rattle.primvar_refine.specs.Rows.{AreGood};
ghost use Rattle.primvar_refine.specs.View.{rows_of};
ghost use Rattle.child_masks.specs.Masks.{CanRefine, step_terms};
ghost use Rattle.primvar_refine.specs.Step.{IsValueRefinement};

use crate::Valued;
use crate::bound::{greatest_of, least_bound, sum_width};
use crate::fault::ValueFault;
use crate::sums::SumStart;
use crate::survey::survey_step;
use crate::values::make_values;
use level_topology::{Child, Level};
use mask_rules::Scheme;
use ratio128::limits::NUMBER_BOUND;
use ratio128::{Primvar, Steps, times_within};
use std::alloc::Global;
use std::sync::ledger::Ledger;

/// Returns the values of the points of a child of a level, from the values of the level's points. Each is the sum of its
/// mask's terms. Its denominator is that of the mask times the least common multiple of the denominators of its sources. The
/// numerators are not reduced.
///
/// There is a value for each point of the parent, all with the same number of numerators. Denominators are from 1 to
/// 2^126 - 1, and numerators are at most that in amount. Each mask term is one step. Each corner of a face is one step too, if
/// some mask uses the face's new point although no child point comes from it.
///
/// `child` is a child of `parent`. Each vertex with a child point is complete. Under Catmull and Clark's scheme each edge with a
/// child point has two faces or a sharpness of at least 1. At a vertex with a child point each edge of one face is then
/// infinitely sharp, and no half of an edge overflows.
///
/// Reports the first fault of these kinds, each over the whole level. `Transition` names the least vertex of the parent, of
/// those with a child point, whose mask is refused. `Denominator` names the least child point whose denominator is above
/// 2^126 - 1. `TooBig` comes where the greatest denominator times a bound of the values is above 2^126 - 1. The bound is the
/// least whole number that no value of the parent exceeds in amount. The error names the first child point with that greatest
/// denominator. Numbers count from 0. Reports `Memory` where memory runs out.
pub fn refine_values<P: Primvar<L>, L: Ledger>(
    alloc: Global,
    parent: &Level,
    child: &Child,
    values: &[Valued<P>],
    scheme: Scheme,
    steps: &mut Steps<L>,
) -> Result<Vec<Valued<P>>, ValueFault>
    requires child { CanRefine parent.now child.now (scheme_of scheme) }
    requires each { length values.now ≡ parent.now.level.point_count }
    requires good { AreGood (rows_of P.numbers values.now) }
    ensures refined { IsValueRefinement parent.now.level (scheme_of scheme) child.now.origins (rows_of P.numbers values.now) result (λ refined. rows_of P.numbers refined.items) }
    ensures taken { OnOk result (steps.new ≡ steps.old + step_terms parent.now.level (scheme_of scheme) child.now.origins) }
    ensures steps { steps.new ≤ steps.old + step_terms parent.now.level (scheme_of scheme) child.now.origins }
    ensures later { steps.old ≤ steps.new }
{
    parent.facts();
    child.facts();
    let survey = survey_step(alloc, parent, child, values, scheme)?;
    let greatest = greatest_of(&survey.dens);
    let bound = least_bound(values);
    if times_within(greatest.den, bound, NUMBER_BOUND).is_none() {
        return Err(ValueFault::TooBig(greatest.place));
    }
    let width = sum_width(greatest.den, bound);
    match values {
        [] => Ok(Vec::new(alloc)),
        [first, ..] => {
            let start = SumStart {
                zero: &first.value,
                width,
            };
            let refined = make_values(
                alloc, parent, child, values, &start, scheme, &survey, steps,
            )?;
            Ok(refined)
        }
    }
}
