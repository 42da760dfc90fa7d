//! The masks of plain vertices, which take no memory and never fail. A vertex is plain where nothing is sharp and few edges
//! meet, and always under the linear scheme.

ghost use Rattle.std.specs.Prelude.{◌≡◌, ◌+◌, ◌<◌, ◌≤◌, true, false, [], ◌++◌, ◌∷◌, length, get_or};
ghost use Rattle.subdiv_model.specs.Mask.{CatmullClark, OfPoint, weigh, weigh_faces, corner_mask, vertex_mask};
ghost use Rattle.subdiv_model.specs.Channel.{transition_overflows_at};
ghost use Rattle.mask_rules.specs.View.{scheme_of};
ghost use Rattle.mask_rules.specs.Spread.{end_terms, positive};
ghost use Rattle.mask_rules.specs.Masks.{IsMask, IsJoinedAs};
ghost use Rattle.mask_rules.specs.Around.{ends_in, faces_in, mask_in, HasFewTerms, HasSharpBoundaryAt};
ghost use Rattle.mask_rules.specs.Smooth.{IsSmoothAt, IsPlainAt, smooth_mask_in};

use crate::made::MadeMask;
use crate::mask::{At, Scheme};
use crate::smooth::is_smooth_at;
use level_topology::Level;

// The number of terms that take no memory.
const FEW: usize = 16;

impl MadeMask {
    // Starts a mask with the vertex, unless its weight is 0.
    fn put_vertex(&mut self, v: u32, weight: u128, denominator: u128)
        ensures terms { self.new.terms ≡ positive (weigh weight (OfPoint v) ∷ []) }
        ensures few { length self.new.terms ≤ 1 }
        ensures denominator { self.new.denominator ≡ denominator }
    {
        self.start(denominator);
        if weight > 0 {
            self.put(At::Point(v), weight);
        }
    }

    // Adds the other ends of the edges, each with the weight 1.
    fn put_ends(&mut self, level: &Level, v: u32)
        requires known { v < level.now.level.point_count }
        requires fits { length self.old.terms + length (get_or level.now.edges_at v []) ≤ 16 }
        ensures terms { self.new.terms ≡ self.old.terms ++ positive (end_terms (λ i. 1) 0 (ends_in level.now v)) }
        ensures few { length self.new.terms ≤ length self.old.terms + length (get_or level.now.edges_at v []) }
        ensures denominator { self.new.denominator ≡ self.old.denominator }
    {
        level.facts();
        for e in level.vertex_edges(v) {
            self.put(At::Point(level.other_end(v, *e)), 1);
        }
    }

    // Adds the faces, each with the weight 1.
    fn put_faces(&mut self, level: &Level, v: u32)
        requires known { v < level.now.level.point_count }
        requires fits { length self.old.terms + length (faces_in level.now v) ≤ 16 }
        ensures terms { self.new.terms ≡ self.old.terms ++ positive (weigh_faces 1 (faces_in level.now v)) }
        ensures denominator { self.new.denominator ≡ self.old.denominator }
    {
        for f in level.vertex_faces(v) {
            self.put(At::FacePoint(*f), 1);
        }
    }

    // Makes the mask of the smooth rule: the vertex, the other ends of its edges, and its faces.
    fn put_around(&mut self, level: &Level, v: u32)
        requires known { v < level.now.level.point_count }
        requires few { HasFewTerms level.now v }
        ensures { self.new ≡ smooth_mask_in level.now v }
    {
        let valence = level.vertex_edges(v).len() as u128;
        self.put_vertex(v, valence * valence.saturating_sub(2), valence * valence);
        self.put_ends(level, v);
        self.put_faces(level, v);
    }

    // Makes the mask of a vertex at which nothing is sharp, in the order of the level's lists.
    fn put_smooth(&mut self, level: &Level, v: u32)
        requires known { v < level.now.level.point_count }
        requires smooth { IsSmoothAt level.now v }
        requires few { HasFewTerms level.now v }
        ensures { IsJoinedAs self.new (mask_in level.now v) }
    {
        level.facts();
        self.put_around(level, v);
    }

    // Makes the mask that gives all weight to the vertex.
    fn put_unmoved(&mut self, v: u32)
        ensures { IsMask self.new (corner_mask v) }
    {
        self.start(1);
        self.put(At::Point(v), 1);
    }

    /// Makes the mask of plain vertex `v`, counted from 0; `is_plain` finds plain vertices. Under Catmull and Clark's scheme
    /// each edge with one face at the vertex must be infinitely sharp. The call replaces the mask made before, cannot fail,
    /// takes no memory and reads no sharpness.
    pub fn put_plain(&mut self, level: &Level, v: u32, scheme: Scheme)
        requires known { v < level.now.level.point_count }
        requires boundary { scheme_of scheme ≡ CatmullClark → HasSharpBoundaryAt level.now.level v }
        requires plain { IsPlainAt level.now (scheme_of scheme) v }
        ensures mask { IsMask self.new (vertex_mask level.now.level (scheme_of scheme) v) }
        ensures fine { transition_overflows_at level.now.level (scheme_of scheme) v ≡ false }
    {
        level.facts();
        match scheme {
            Scheme::CatmullClark => self.put_smooth(level, v),
            Scheme::Linear => self.put_unmoved(v),
        }
    }
}

// Returns whether the vertex, its edges and its faces are at most 16 together.
fn has_few_terms(level: &Level, v: u32) -> bool
    requires { v < level.now.level.point_count }
    ensures few { result ≡ true → HasFewTerms level.now v }
    ensures found { HasFewTerms level.now v → result ≡ true }
{
    level.facts();
    level.vertex_edges(v).len() < FEW
        && level.vertex_faces(v).len() < FEW - level.vertex_edges(v).len()
}

/// Returns whether vertex `v`, counted from 0, is plain. Under Catmull and Clark's scheme a plain vertex has edges, and
/// neither it nor any of them is sharp. The vertex, its edges and its faces are at most 16 together. Under the linear scheme
/// every vertex is plain.
pub fn is_plain(level: &Level, v: u32, scheme: Scheme) -> bool
    requires { v < level.now.level.point_count }
    ensures plain { result ≡ true → IsPlainAt level.now (scheme_of scheme) v }
    ensures found { IsPlainAt level.now (scheme_of scheme) v → result ≡ true }
{
    match scheme {
        Scheme::CatmullClark => has_few_terms(level, v) && is_smooth_at(level, v),
        Scheme::Linear => true,
    }
}
