//! The rule that a vertex keeps at every further level.

ghost use Rattle.std.specs.Prelude.{◌≡◌, ◌<◌, get_or, length, if◌then◌else◌};
ghost use Rattle.subdiv_model.specs.Edges.{edges_of};
ghost use Rattle.subdiv_model.specs.Feature.{is_infinite};
ghost use Rattle.subdiv_model.specs.Sharpness.{Smooth};
ghost use Rattle.sharpness_rules.specs.View.{sharpness_of};
ghost use Rattle.mask_rules.specs.Around.{end_of_edge};
ghost use Rattle.limit_stencils.specs.AtVertex.{rule_in, rule_of_edges, with_end};

use level_topology::Level;
use sharpness_rules::Sharpness;

/// The rule of a vertex, by the number of its infinitely sharp edges. One or two such edges come with their other ends.
#[derive(Clone, Copy)]
pub(crate) enum LastingRule {
    /// No edge is infinitely sharp.
    Smooth,
    /// One edge is infinitely sharp.
    Dart(u32),
    /// Two edges are infinitely sharp.
    Crease(u32, u32),
    /// Three or more edges are infinitely sharp, or the vertex is, or it has no edge.
    Corner,
}

impl LastingRule {
    // Returns the rule after one more infinitely sharp edge.
    fn with_end(self, end: u32) -> LastingRule
        ensures { result ≡ with_end end self }
    {
        match self {
            LastingRule::Smooth => LastingRule::Dart(end),
            LastingRule::Dart(first) => LastingRule::Crease(first, end),
            LastingRule::Crease(_, _) | LastingRule::Corner => LastingRule::Corner,
        }
    }
}

fn is_infinite(s: Sharpness) -> bool
    ensures { result ≡ is_infinite (sharpness_of s) }
{
    matches!(s, Sharpness::Infinite)
}

// Returns the rule after one more edge.
fn with_edge(level: &Level, v: u32, e: u32, rule: LastingRule) -> LastingRule
    requires { e < length (edges_of level.now.level.polygons) }
    ensures { result ≡ (if is_infinite (get_or level.now.level.edge_sharpness e Smooth) then with_end (end_of_edge level.now.level.polygons v e) rule else rule) }
{
    if is_infinite(level.edge_sharpness(e)) {
        rule.with_end(level.other_end(v, e))
    } else {
        rule
    }
}

// Returns the rule by the edges, without the sharpness of the vertex. The call visits each edge once.
fn rule_of_edges(level: &Level, v: u32) -> LastingRule
    requires { v < level.now.level.point_count }
    ensures { result ≡ rule_of_edges level.now v }
{
    level.facts();
    let mut rule = LastingRule::Smooth;
    for e in level.vertex_edges(v) {
        rule = with_edge(level, v, *e, rule);
    }
    rule
}

/// Returns the rule that a vertex keeps at every further level. The call takes no memory.
pub(crate) fn lasting_rule(level: &Level, v: u32) -> LastingRule
    requires { v < level.now.level.point_count }
    ensures { result ≡ rule_in level.now v }
{
    level.facts();
    if is_infinite(level.vertex_sharpness(v)) || level.vertex_edges(v).is_empty() {
        return LastingRule::Corner;
    }
    rule_of_edges(level, v)
}
