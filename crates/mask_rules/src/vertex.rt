//! The mask of the new point of a vertex.

ghost use Rattle.std.specs.Prelude.{◌≡◌, ◌<◌, ◌≤◌, ◌+◌, ◌*◌, ◌^◌, true, IsTrue, [], ◌∷◌, ◌++◌, length, map, get_or, IsOk, OnOk, IfOk, IfErr};
ghost use Rattle.subdiv_model.specs.Edges.{edges_of};
ghost use Rattle.subdiv_model.specs.Multiples.{lcm_of};
ghost use Rattle.subdiv_model.specs.Mask.{weigh, weigh_faces, corner_mask, blend};
ghost use Rattle.sharpness_rules.specs.View.{rule_of};
ghost use Rattle.level_topology.specs.Topology.{edge_at};
ghost use Rattle.mask_rules.specs.View.{source_of, terms_of, seen_vertex};
ghost use Rattle.mask_rules.specs.Spread.{vertex_weight, end_weight, face_weight, rule_denominator, end_share, end_terms, spread_mask, IsRuleAmong};
ghost use Rattle.mask_rules.specs.Masks.{IsMask, IsJoinedAs};
ghost use Rattle.mask_rules.specs.Around.{end_of_edge, ends_in, faces_in, rule_mask_in, HasFewTerms};
ghost use Rattle.mask_rules.specs.Growth.{Grows, GetsTerms};
ghost use Rattle.smallvec.specs.SmallVec.{HasRoomFor};

use crate::mask::{At, MaskFault, Term};
use level_topology::Level;
use ratio128::{Memory, gcd};
use sharpness_rules::{Rule, Weight};
use smallvec::SmallVec;
use std::alloc::Global;

/// The mask of a vertex. It keeps up to 16 terms without memory.
#[derive(Drop)]
pub struct VertexMask {
    terms: SmallVec<Term, 16>,
    denominator: u128,
}

impl VertexMask {
    /// Returns the terms, in an order that no contract fixes. Each source occurs once, with a weight above 0.
    pub fn terms(&self) -> &[Term]
        ensures { terms_of result.now ≡ (seen_vertex self.now).terms }
    {
        self.terms.as_slice()
    }

    /// Returns the denominator, which is the sum of the weights.
    pub fn denominator(&self) -> u128
        ensures { result ≡ (seen_vertex self.now).denominator }
    {
        self.denominator
    }
}

// A share of the mask of one rule and a share of the mask of another.
#[derive(Clone, Copy)]
pub(crate) struct Parts {
    pub(crate) parent: Rule,
    pub(crate) by: u128,
    pub(crate) child: Rule,
    pub(crate) rest: u128,
}

// Returns the weight of a vertex with `valence` edges.
fn vertex_weight(rule: Rule, valence: u64) -> u128
    ensures { result ≡ vertex_weight (rule_of rule) valence }
{
    match rule {
        Rule::Smooth | Rule::Dart => valence as u128 * valence.saturating_sub(2) as u128,
        Rule::Crease { .. } => 6,
        Rule::Corner => 1,
    }
}

// Returns the weight of the other end of the edge at a place of the ring.
fn end_weight(rule: Rule, place: usize) -> u128
    ensures value { result ≡ end_weight (rule_of rule) place }
    ensures small { result ≤ 1 }
{
    match rule {
        Rule::Smooth | Rule::Dart => 1,
        Rule::Crease { first, second } => {
            if place == first as usize || place == second as usize {
                1
            } else {
                0
            }
        }
        Rule::Corner => 0,
    }
}

// Returns the weight of a face.
fn face_weight(rule: Rule) -> u128
    ensures value { result ≡ face_weight (rule_of rule) }
    ensures small { result ≤ 1 }
{
    match rule {
        Rule::Smooth | Rule::Dart => 1,
        Rule::Crease { .. } | Rule::Corner => 0,
    }
}

// Returns the sum of the weights at a vertex with `valence` edges.
pub(crate) fn rule_denominator(rule: Rule, valence: u64) -> u128
    ensures { result ≡ rule_denominator (rule_of rule) valence }
{
    match rule {
        Rule::Smooth | Rule::Dart => valence as u128 * valence as u128,
        Rule::Crease { .. } => 8,
        Rule::Corner => 1,
    }
}

impl Parts {
    fn of_vertex(self, valence: u64) -> u128
        requires small { self.by * rule_denominator (rule_of self.parent) valence + self.rest * rule_denominator (rule_of self.child) valence < 2 ^ 128 }
        ensures { result ≡ self.by * vertex_weight (rule_of self.parent) valence + self.rest * vertex_weight (rule_of self.child) valence }
    {
        self.by * vertex_weight(self.parent, valence)
            + self.rest * vertex_weight(self.child, valence)
    }

    fn of_end(self, place: usize) -> u128
        requires small { self.by + self.rest < 2 ^ 128 }
        ensures { result ≡ end_share (rule_of self.parent) (rule_of self.child) self.by self.rest place }
    {
        self.by * end_weight(self.parent, place) + self.rest * end_weight(self.child, place)
    }

    fn of_face(self) -> u128
        requires small { self.by + self.rest < 2 ^ 128 }
        ensures { result ≡ self.by * face_weight (rule_of self.parent) + self.rest * face_weight (rule_of self.child) }
    {
        self.by * face_weight(self.parent) + self.rest * face_weight(self.child)
    }
}

// Adds a term, unless its weight is 0.
fn put(terms: &mut SmallVec<Term, 16>, at: At, weight: u128) -> Result<(), Memory>
    ensures terms { OnOk result (GetsTerms terms.old (weigh weight (source_of at) ∷ []) terms.new) }
    ensures grows { OnOk result (Grows terms.old 1 terms.new) }
    ensures room { HasRoomFor terms.old 1 → IsOk result }
{
    if weight > 0 {
        terms.push(Term { at, weight })?;
    }
    Ok(())
}

// Adds the other ends of the edges.
fn put_ends(
    terms: &mut SmallVec<Term, 16>,
    level: &Level,
    v: u32,
    parts: Parts,
) -> Result<(), Memory>
    requires known { v < level.now.level.point_count }
    requires small { parts.by + parts.rest < 2 ^ 128 }
    ensures terms { OnOk result (GetsTerms terms.old
        (end_terms (end_share (rule_of parts.parent) (rule_of parts.child) parts.by parts.rest) 0 (ends_in level.now v)) terms.new) }
    ensures grows { OnOk result (Grows terms.old (length (get_or level.now.edges_at v [])) terms.new) }
    ensures room { HasRoomFor terms.old (length (get_or level.now.edges_at v [])) → IsOk result }
{
    level.facts();
    for (place, e) in level.vertex_edges(v).iter().enumerate() {
        put(
            terms,
            At::Point(level.other_end(v, *e)),
            parts.of_end(place),
        )?;
    }
    Ok(())
}

// Adds the faces.
fn put_faces(
    terms: &mut SmallVec<Term, 16>,
    level: &Level,
    v: u32,
    weight: u128,
) -> Result<(), Memory>
    requires { v < level.now.level.point_count }
    ensures terms { OnOk result (GetsTerms terms.old (weigh_faces weight (faces_in level.now v)) terms.new) }
    ensures grows { OnOk result (Grows terms.old (length (faces_in level.now v)) terms.new) }
    ensures room { HasRoomFor terms.old (length (faces_in level.now v)) → IsOk result }
{
    for f in level.vertex_faces(v) {
        put(terms, At::FacePoint(*f), weight)?;
    }
    Ok(())
}

// Returns the shares of the masks of two rules, over one denominator.
pub(crate) fn spread(
    alloc: Global,
    level: &Level,
    v: u32,
    parts: Parts,
    denominator: u128,
) -> Result<VertexMask, MaskFault>
    requires known { v < level.now.level.point_count }
    requires fits { parts.by * rule_denominator (rule_of parts.parent) (length (ends_in level.now v))
        + parts.rest * rule_denominator (rule_of parts.child) (length (ends_in level.now v)) < 2 ^ 128 }
    requires small { parts.by + parts.rest < 2 ^ 128 }
    ensures mask { IfOk result (λ m. seen_vertex m
        ≡ spread_mask (rule_of parts.parent) (rule_of parts.child) parts.by parts.rest denominator v (ends_in level.now v) (faces_in level.now v)) }
    ensures fault { IfErr result (λ fault. fault ≡ MaskFault.Memory) }
    ensures few { HasFewTerms level.now v → IsOk result }
{
    let mut terms = SmallVec::new(alloc);
    let valence = level.vertex_edges(v).len() as u64;
    put(&mut terms, At::Point(v), parts.of_vertex(valence))?;
    put_ends(&mut terms, level, v, parts)?;
    put_faces(&mut terms, level, v, parts.of_face())?;
    Ok(VertexMask { terms, denominator })
}

// Returns the mask that gives all weight to the vertex.
pub(crate) fn corner_mask(alloc: Global, v: u32) -> VertexMask
    ensures { IsMask (seen_vertex result) (corner_mask v) }
{
    let mut terms = SmallVec::new(alloc);
    terms.push_reserved(Term {
        at: At::Point(v),
        weight: 1,
    });
    VertexMask {
        terms,
        denominator: 1,
    }
}

// Returns the mask of one rule.
pub(crate) fn one_rule(
    alloc: Global,
    level: &Level,
    v: u32,
    rule: Rule,
) -> Result<VertexMask, MaskFault>
    requires known { v < level.now.level.point_count }
    requires among { IsRuleAmong (rule_of rule) (length (ends_in level.now v)) }
    ensures mask { IfOk result (λ m. IsJoinedAs (seen_vertex m) (rule_mask_in level.now v (rule_of rule))) }
    ensures fault { IfErr result (λ fault. fault ≡ MaskFault.Memory) }
    ensures few { HasFewTerms level.now v → IsOk result }
{
    level.facts();
    if rule == Rule::Corner {
        return Ok(corner_mask(alloc, v));
    }
    let valence = level.vertex_edges(v).len() as u64;
    let parts = Parts {
        parent: rule,
        by: 1,
        child: rule,
        rest: 0,
    };
    spread(alloc, level, v, parts, rule_denominator(rule, valence))
}

// Returns the least common multiple of the sums of the weights of two rules.
fn common_multiple(p: u128, r: u128) -> u128
    requires positive { 0 < r }
    requires small { lcm_of p r < 2 ^ 128 }
    ensures { result ≡ lcm_of p r }
{
    p * (r / gcd(p, r))
}

// Returns part of the mask of one rule plus the rest of the mask of another.
pub(crate) fn two_rules(
    alloc: Global,
    level: &Level,
    v: u32,
    parent: Rule,
    child: Rule,
    weight: Weight,
) -> Result<VertexMask, MaskFault>
    requires known { v < level.now.level.point_count }
    requires parent { IsRuleAmong (rule_of parent) (length (ends_in level.now v)) }
    requires child { IsRuleAmong (rule_of child) (length (ends_in level.now v)) }
    requires part { weight.num ≤ weight.den }
    requires short { weight.den ≤ 2 ^ 60 }
    ensures mask { IfOk result (λ m. IsJoinedAs (seen_vertex m) (blend (weight.num, weight.den)
        (rule_mask_in level.now v (rule_of parent)) (rule_mask_in level.now v (rule_of child)))) }
    ensures fault { IfErr result (λ fault. fault ≡ MaskFault.Memory) }
    ensures few { HasFewTerms level.now v → IsOk result }
{
    level.facts();
    let valence = level.valence(v);
    let p = rule_denominator(parent, valence as u64);
    let r = rule_denominator(child, valence as u64);
    let multiple = common_multiple(p, r);
    let parts = Parts {
        parent,
        by: weight.num as u128 * (multiple / p),
        child,
        rest: (weight.den - weight.num) as u128 * (multiple / r),
    };
    spread(alloc, level, v, parts, weight.den as u128 * multiple)
}
