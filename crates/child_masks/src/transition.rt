//! The least vertex whose mask is refused.

ghost use Rattle.std.specs.Prelude.{◌≡◌, ℕ, ◌<◌, true, List, IsTrue, MatchOption};
ghost use Rattle.subdiv_model.specs.Channel.{transition_overflows_at};
ghost use Rattle.level_topology.specs.Child.{FromVertex};
ghost use Rattle.mask_rules.specs.View.{scheme_of};
ghost use Rattle.child_masks.specs.Masks.{CanRefine, HasNoTransitionAt, has_origin};
ghost use Rattle.child_masks.specs.Survey.{IsSurveyFault};
ghost use Rattle.child_masks.specs.Found.{IsRefusalAt};

use crate::fault::SurveyFault;
use level_topology::{Child, Level};
use mask_rules::{MaskFault, Scheme, vertex_mask};
use std::alloc::Global;

// Returns the fault that keeps a vertex from a mask, if the vertex has a child point.
fn refusal(
    alloc: Global,
    parent: &Level,
    child: &Child,
    v: u32,
    scheme: Scheme,
) -> Option<SurveyFault>
    requires child { CanRefine parent.now child.now (scheme_of scheme) }
    requires known { v < parent.now.level.point_count }
    ensures { MatchOption result
        (HasNoTransitionAt parent.now.level (scheme_of scheme) child.now.origins v)
        (IsRefusalAt parent.now.level (scheme_of scheme) child.now.origins v) }
{
    if child.vertex_point(v).is_none() {
        return None;
    }
    match vertex_mask(alloc, parent, v, scheme) {
        Ok(_) => None,
        Err(MaskFault::Transition) => Some(SurveyFault::Transition(v)),
        Err(MaskFault::Memory) => Some(SurveyFault::Memory),
    }
}

/// Returns the fault of a step in which some mask is refused; it names the least such vertex.
pub(crate) fn least_refused(
    alloc: Global,
    parent: &Level,
    child: &Child,
    scheme: Scheme,
    refused: u32,
) -> SurveyFault
    requires child { CanRefine parent.now child.now (scheme_of scheme) }
    requires known { refused < parent.now.level.point_count }
    requires has { IsTrue (has_origin child.now.origins (FromVertex refused)) }
    requires refused { transition_overflows_at parent.now.level (scheme_of scheme) refused ≡ true }
    ensures { (dens : List ℕ) → IsSurveyFault parent.now.level (scheme_of scheme) child.now.origins dens result }
{
    for v in 0..refused {
        if let Some(fault) = refusal(alloc, parent, child, v, scheme) {
            return fault;
        }
    }
    SurveyFault::Transition(refused)
}
