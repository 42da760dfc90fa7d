//! The mask of a vertex, from its rules in its level and in the next level.

ghost use Rattle.std.specs.Prelude.{◌≡◌, ◌+◌, ◌<◌, ◌≤◌, ◌^◌, true, false, IsTrue, [], length, map, get_or, IsOk, IfOk, IfErr, MatchResult};
ghost use Rattle.subdiv_model.specs.Sharpness.{Chaikin, chaikin_overflows};
ghost use Rattle.subdiv_model.specs.Rule.{child_ring};
ghost use Rattle.subdiv_model.specs.Mask.{CatmullClark, transition_mask};
ghost use Rattle.subdiv_model.specs.Channel.{chaikin_overflows_at, transition_overflows_at};
ghost use Rattle.sharpness_rules.specs.View.{sharpness_of, rule_of};
ghost use Rattle.mask_rules.specs.View.{scheme_of, seen_vertex};
ghost use Rattle.mask_rules.specs.Spread.{IsRuleAmong};
ghost use Rattle.mask_rules.specs.Masks.{IsVertexMask, IsJoinedAs};
ghost use Rattle.mask_rules.specs.Around.{ends_in, ring_in, rule_mask_in, mask_in, is_refused_in, IsFaultWhere, HasSharpBoundaryAt, HasFewTerms};

use crate::mask::{MaskFault, Scheme};
use crate::ring::{is_same_mask, put_child_ring, put_ring};
use crate::smooth::{is_smooth_at, smooth_mask};
use crate::vertex::{VertexMask, corner_mask, one_rule, two_rules};
use level_topology::Level;
use ratio128::Memory;
use sharpness_rules::{Rule, Sharpness, Weight, transition_weight, uniform_child, vertex_rule};
use std::alloc::Global;

// The number of edges up to which a ring takes no memory.
const FEW: usize = 16;

// Returns part of the mask of one rule plus the rest of the mask of another. At the weight 1 it returns the first mask.
fn weighed(
    alloc: Global,
    level: &Level,
    v: u32,
    parent: Rule,
    child: Rule,
    weight: Weight,
) -> Result<VertexMask, MaskFault>
    requires known { v < level.now.level.point_count }
    requires parent { IsRuleAmong (rule_of parent) (length (ends_in level.now v)) }
    requires child { IsRuleAmong (rule_of child) (length (ends_in level.now v)) }
    requires part { weight.num ≤ weight.den }
    requires short { weight.den ≤ 2 ^ 60 }
    ensures mask { IfOk result (λ m. IsJoinedAs (seen_vertex m) (transition_mask (weight.num, weight.den)
        (rule_mask_in level.now v (rule_of parent)) (rule_mask_in level.now v (rule_of child)))) }
    ensures fault { IfErr result (λ fault. fault ≡ MaskFault.Memory) }
    ensures few { HasFewTerms level.now v → IsOk result }
{
    if weight.num == weight.den {
        one_rule(alloc, level, v, parent)
    } else {
        two_rules(alloc, level, v, parent, child, weight)
    }
}

// Returns the mask between the rules of two rings of the same edges.
fn mask_of_rings(
    alloc: Global,
    level: &Level,
    v: u32,
    ring: &[Sharpness],
    next: &[Sharpness],
) -> Result<VertexMask, MaskFault>
    requires known { v < level.now.level.point_count }
    requires short { length ring.now < 2 ^ 32 }
    requires ring { map sharpness_of ring.now ≡ ring_in level.now v }
    requires next { map sharpness_of next.now ≡ child_ring level.now.level.method (ring_in level.now v) }
    ensures mask { MatchResult result (λ m. IsJoinedAs (seen_vertex m) (mask_in level.now v) × (is_refused_in level.now v ≡ false))
        (IsFaultWhere (is_refused_in level.now v)) }
    ensures few { HasFewTerms level.now v → IfErr result (λ fault. fault ≡ MaskFault.Transition) }
{
    let vertex = level.vertex_sharpness(v);
    let vertex_child = uniform_child(vertex);
    let parent = vertex_rule(vertex, ring);
    let child = vertex_rule(vertex_child, next);
    if is_same_mask(parent, child) {
        return one_rule(alloc, level, v, parent);
    }
    match transition_weight(vertex, vertex_child, ring, next) {
        Ok(weight) => weighed(alloc, level, v, parent, child, weight),
        Err(_) => Err(MaskFault::Transition),
    }
}

// Writes both rings, then returns the mask between their rules.
fn from_rings(
    alloc: Global,
    level: &Level,
    v: u32,
    ring: &mut [Sharpness],
    next: &mut [Sharpness],
) -> Result<VertexMask, MaskFault>
    requires known { v < level.now.level.point_count }
    requires ring_len { length ring.old ≡ length (ring_in level.now v) }
    requires next_len { length next.old ≡ length (ring_in level.now v) }
    requires short { length ring.old < 2 ^ 32 }
    requires fine { level.now.level.method ≡ Chaikin → chaikin_overflows (ring_in level.now v) ≡ false }
    ensures mask { MatchResult result (λ m. IsJoinedAs (seen_vertex m) (mask_in level.now v) × (is_refused_in level.now v ≡ false))
        (IsFaultWhere (is_refused_in level.now v)) }
    ensures few { HasFewTerms level.now v → IfErr result (λ fault. fault ≡ MaskFault.Transition) }
{
    put_ring(level, v, ring);
    put_child_ring(level.method(), ring, next);
    mask_of_rings(alloc, level, v, ring, next)
}

// Returns the mask under Catmull and Clark's scheme, in the order of the level's lists.
fn by_rules(alloc: Global, level: &Level, v: u32) -> Result<VertexMask, MaskFault>
    requires known { v < level.now.level.point_count }
    requires fine { level.now.level.method ≡ Chaikin → chaikin_overflows (ring_in level.now v) ≡ false }
    ensures mask { MatchResult result (λ m. IsJoinedAs (seen_vertex m) (mask_in level.now v) × (is_refused_in level.now v ≡ false))
        (IsFaultWhere (is_refused_in level.now v)) }
    ensures few { HasFewTerms level.now v → IfErr result (λ fault. fault ≡ MaskFault.Transition) }
{
    if is_smooth_at(level, v) {
        return smooth_mask(alloc, level, v);
    }
    let count = level.valence(v) as usize;
    if count <= FEW {
        let mut ring = [Sharpness::Smooth; FEW];
        let mut next = [Sharpness::Smooth; FEW];
        return from_rings(alloc, level, v, &mut ring[..count], &mut next[..count]);
    }
    let mut ring = rings(alloc, count)?;
    let (ring, next) = ring.split_at_mut(count);
    from_rings(alloc, level, v, ring, next)
}

// Returns the memory for two rings.
fn rings(alloc: Global, count: usize) -> Result<Vec<Sharpness>, Memory>
    requires { count < 2 ^ 32 }
    ensures { IfOk result (λ rings. length rings.items ≡ count + count) }
{
    let rings = vec![in alloc; Sharpness::Smooth; count + count]?;
    Ok(rings)
}

/// Returns the mask of vertex `v`, counted from 0, in time linear in the number of its edges. The lists of the vertex must be
/// complete. Under Catmull and Clark's scheme each edge with one face there must be infinitely sharp. Under the method
/// chaikin the half of each edge there must have a sharpness.
///
/// Reports `Transition` where the rules in this level and in the next have different masks, and the blend between them needs
/// a denominator above 2^60. That denominator is the one before reduction. Only Catmull and Clark's scheme has this error.
/// Reports `Memory` where memory runs out. `Memory` never comes under the linear scheme, nor where the vertex, its edges and
/// its faces are at most 16 together.
pub fn vertex_mask(
    alloc: Global,
    level: &Level,
    v: u32,
    scheme: Scheme,
) -> Result<VertexMask, MaskFault>
    requires known { v < level.now.level.point_count }
    requires complete { get_or level.now.complete v false ≡ true }
    requires boundary { scheme_of scheme ≡ CatmullClark → HasSharpBoundaryAt level.now.level v }
    requires fine { scheme_of scheme ≡ CatmullClark → chaikin_overflows_at level.now.level v ≡ false }
    ensures mask { MatchResult result (IsVertexMask level.now.level (scheme_of scheme) v)
        (IsFaultWhere (transition_overflows_at level.now.level (scheme_of scheme) v)) }
    ensures few { (scheme_of scheme ≡ CatmullClark → HasFewTerms level.now v) → IfErr result (λ fault. fault ≡ MaskFault.Transition) }
{
    level.facts();
    match scheme {
        Scheme::CatmullClark => by_rules(alloc, level, v),
        Scheme::Linear => Ok(corner_mask(alloc, v)),
    }
}
