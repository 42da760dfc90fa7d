//! The ring of a vertex: the sharpness of its edges, in its level and in the next level.

ghost use Rattle.std.specs.Prelude.{◌≡◌, ◌<◌, ◌^◌, false, length, map};
ghost use Rattle.subdiv_model.specs.Sharpness.{Chaikin, chaikin_overflows};
ghost use Rattle.subdiv_model.specs.Rule.{child_ring, same_mask, is_smooth_or_dart, is_crease_of};
ghost use Rattle.sharpness_rules.specs.View.{sharpness_of, method_of, rule_of};
ghost use Rattle.mask_rules.specs.Around.{ring_in};
ghost use Rattle.mask_rules.specs.Ring.{IsHalf};

use level_topology::Level;
use sharpness_rules::{Halves, Method, Rule, Sharpness};

// Writes the sharpness of each edge at a vertex.
pub(crate) fn put_ring(level: &Level, v: u32, ring: &mut [Sharpness])
    requires known { v < level.now.level.point_count }
    requires len { length ring.old ≡ length (ring_in level.now v) }
    ensures { map sharpness_of ring.new ≡ ring_in level.now v }
{
    level.facts();
    for (place, e) in level.vertex_edges(v).iter().enumerate() {
        ring[place] = level.edge_sharpness(*e);
    }
}

// Returns the sharpness of the half of an edge, in a ring whose halves do not overflow.
fn half_of(halves: Halves, s: Sharpness) -> Sharpness
    ensures { IsHalf halves s result }
{
    match halves.half(s) {
        Ok(half) => half,
        Err(_) => s,
    }
}

// Writes the sharpness of the half of each edge.
pub(crate) fn put_child_ring(method: Method, ring: &[Sharpness], next: &mut [Sharpness])
    requires len { length next.old ≡ length ring.now }
    requires short { length ring.now < 2 ^ 32 }
    requires fine { method_of method ≡ Chaikin → chaikin_overflows (map sharpness_of ring.now) ≡ false }
    ensures { map sharpness_of next.new ≡ child_ring (method_of method) (map sharpness_of ring.now) }
{
    let halves = Halves::of(method, ring);
    for (place, s) in ring.iter().enumerate() {
        next[place] = half_of(halves, *s);
    }
}

// Returns whether two rules have the same mask.
pub(crate) fn is_same_mask(parent: Rule, child: Rule) -> bool
    ensures { result ≡ same_mask (rule_of parent) (rule_of child) }
{
    match parent {
        Rule::Smooth | Rule::Dart => is_smooth_or_dart(child),
        Rule::Crease { first, second } => is_crease_of(first, second, child),
        Rule::Corner => matches!(child, Rule::Corner),
    }
}

fn is_smooth_or_dart(rule: Rule) -> bool
    ensures { result ≡ is_smooth_or_dart (rule_of rule) }
{
    matches!(rule, Rule::Smooth | Rule::Dart)
}

fn is_crease_of(a: u32, b: u32, rule: Rule) -> bool
    ensures { result ≡ is_crease_of a b (rule_of rule) }
{
    match rule {
        Rule::Crease { first, second } => a == first && b == second,
        _ => false,
    }
}
