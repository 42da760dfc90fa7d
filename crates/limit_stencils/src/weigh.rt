//! The weights of a limit point.

ghost use Rattle.std.specs.Prelude.{◌≡◌, ◌<◌, true, [], ◌∷◌, length, OnOk};
ghost use Rattle.std.specs.List.{flat_map};
ghost use Rattle.subdiv_model.specs.Polygons.{polygon_at};
ghost use Rattle.subdiv_model.specs.Mask.{OfPoint, weigh, weigh_points};
ghost use Rattle.subdiv_model.specs.Limit.{has_quads};
ghost use Rattle.mask_rules.specs.Around.{faces_in};
ghost use Rattle.limit_stencils.specs.AtVertex.{face_terms, quad_terms, rule_in, smooth_weights, weights_by_rule, with_terms};

use crate::lasting::{LastingRule, lasting_rule};
use crate::quads::next_and_opposite;
use level_topology::Level;
use ratio128::Memory;
use stencil_factory::PointWeights;

// Puts the next corner and the opposite corner of a quad, from the place of the vertex among its corners.
fn put_quad(level: &Level, face: u32, place: u16, weights: &mut PointWeights) -> Result<(), Memory>
    requires known { face < length level.now.level.polygons }
    requires quads { has_quads level.now.level ≡ true }
    ensures { OnOk result (weights.new ≡ with_terms weights.old (quad_terms (polygon_at level.now.level.polygons face) place)) }
{
    let (next, opposite) = next_and_opposite(level, face, place);
    weights.put(next, 4)?;
    weights.put(opposite, 1)
}

// Puts the next corner and the opposite corner of each quad of a vertex.
fn put_quads(level: &Level, v: u32, weights: &mut PointWeights) -> Result<(), Memory>
    requires known { v < level.now.level.point_count }
    requires quads { has_quads level.now.level ≡ true }
    ensures { OnOk result (weights.new ≡ with_terms weights.old (flat_map (face_terms level.now.level.polygons v) (faces_in level.now v))) }
{
    level.facts();
    let faces = level.vertex_faces(v);
    let places = level.vertex_faces_at(v);
    for i in 0..faces.len() {
        put_quad(level, faces[i], places[i], weights)?;
    }
    Ok(())
}

// Puts the vertex into empty weights.
fn start(v: u32, weight: u128, denominator: u128, weights: &mut PointWeights) -> Result<(), Memory>
    ensures { OnOk result (weights.new ≡ record { terms = weigh weight (OfPoint v) ∷ []; denominator = denominator }) }
{
    weights.start(denominator);
    weights.put(v, weight)
}

/// Puts the weights of a smooth vertex. Each neighbour is the next corner of one quad.
pub(crate) fn put_smooth(level: &Level, v: u32, weights: &mut PointWeights) -> Result<(), Memory>
    requires known { v < level.now.level.point_count }
    requires quads { has_quads level.now.level ≡ true }
    ensures { OnOk result (weights.new ≡ smooth_weights level.now v) }
{
    let valence = u128::from(level.valence(v));
    start(v, valence * valence, valence * (valence + 5), weights)?;
    put_quads(level, v, weights)
}

// Puts the weights of a vertex of a crease and of its two neighbours on the crease.
fn put_crease(v: u32, first: u32, second: u32, weights: &mut PointWeights) -> Result<(), Memory>
    ensures { OnOk result (weights.new ≡ record { terms = weigh 4 (OfPoint v) ∷ weigh_points 1 (first ∷ second ∷ []); denominator = 6 }) }
{
    start(v, 4, 6, weights)?;
    weights.put(first, 1)?;
    weights.put(second, 1)
}

/// Puts the weights of the limit point of a vertex, by the rule of the vertex.
pub(crate) fn put_limit(level: &Level, v: u32, weights: &mut PointWeights) -> Result<(), Memory>
    requires known { v < level.now.level.point_count }
    requires quads { has_quads level.now.level ≡ true }
    ensures { OnOk result (weights.new ≡ weights_by_rule level.now v (rule_in level.now v)) }
{
    match lasting_rule(level, v) {
        LastingRule::Smooth | LastingRule::Dart(_) => put_smooth(level, v, weights),
        LastingRule::Crease(first, second) => put_crease(v, first, second, weights),
        LastingRule::Corner => start(v, 1, 1, weights),
    }
}
