//! The mask of a vertex at which nothing is sharp. It needs no rings.

ghost use Rattle.std.specs.Prelude.{◌≡◌, ◌<◌, true, false, not, IfErr, MatchResult};
ghost use Rattle.std.specs.List.{list_any};
ghost use Rattle.subdiv_model.specs.Sharpness.{is_sharp};
ghost use Rattle.mask_rules.specs.View.{seen_vertex};
ghost use Rattle.mask_rules.specs.Masks.{IsJoinedAs};
ghost use Rattle.mask_rules.specs.Around.{ring_in, mask_in, is_refused_in, IsFaultWhere, HasFewTerms};
ghost use Rattle.mask_rules.specs.Smooth.{IsSmoothAt};

use crate::mask::MaskFault;
use crate::vertex::{VertexMask, one_rule};
use level_topology::Level;
use sharpness_rules::Rule;
use std::alloc::Global;

// Returns whether no edge at the vertex is sharp.
fn are_smooth(level: &Level, v: u32) -> bool
    requires { v < level.now.level.point_count }
    ensures { list_any is_sharp (ring_in level.now v) ≡ not result }
{
    level.facts();
    for e in level.vertex_edges(v) {
        if level.edge_sharpness(*e).is_sharp() {
            return false;
        }
    }
    true
}

/// Returns whether the vertex has edges, and neither it nor any of them is sharp.
pub(crate) fn is_smooth_at(level: &Level, v: u32) -> bool
    requires { v < level.now.level.point_count }
    ensures smooth { result ≡ true → IsSmoothAt level.now v }
    ensures found { IsSmoothAt level.now v → result ≡ true }
{
    level.facts();
    !level.vertex_edges(v).is_empty()
        && !level.vertex_sharpness(v).is_sharp()
        && are_smooth(level, v)
}

/// Returns the mask of a vertex at which nothing is sharp, in the order of the level's lists.
pub(crate) fn smooth_mask(alloc: Global, level: &Level, v: u32) -> Result<VertexMask, MaskFault>
    requires known { v < level.now.level.point_count }
    requires smooth { IsSmoothAt level.now v }
    ensures mask { MatchResult result (λ m. IsJoinedAs (seen_vertex m) (mask_in level.now v) × (is_refused_in level.now v ≡ false))
        (IsFaultWhere (is_refused_in level.now v)) }
    ensures few { HasFewTerms level.now v → IfErr result (λ fault. fault ≡ MaskFault.Transition) }
{
    one_rule(alloc, level, v, Rule::Smooth)
}
