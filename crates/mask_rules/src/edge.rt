//! The mask of the new point of an edge.

ghost use Rattle.std.specs.Prelude.{◌≡◌, ◌<◌, ◌⊎◌, IsTrue, length, get_or};
ghost use Rattle.subdiv_model.specs.Edges.{edges_of};
ghost use Rattle.subdiv_model.specs.Sharpness.{Smooth};
ghost use Rattle.subdiv_model.specs.Mask.{CatmullClark, OfPoint, OfFace, weigh, edge_mask};
ghost use Rattle.sharpness_rules.specs.View.{sharpness_of};
ghost use Rattle.level_topology.specs.Topology.{edge_at, faces_of_edge_at};
ghost use Rattle.mask_rules.specs.View.{scheme_of, term_of};
ghost use Rattle.mask_rules.specs.Masks.{IsMask, is_at_least_one, IsBelowOne, IsPartBelowOne, ends_over, around_over};

use crate::made::MadeMask;
use crate::mask::{At, Scheme, Term};
use level_topology::Level;
use sharpness_rules::Sharpness;

fn point(v: u32, weight: u128) -> Term
    ensures { term_of result ≡ weigh weight (OfPoint v) }
{
    Term {
        at: At::Point(v),
        weight,
    }
}

fn face_point(f: u32, weight: u128) -> Term
    ensures { term_of result ≡ weigh weight (OfFace f) }
{
    Term {
        at: At::FacePoint(f),
        weight,
    }
}

// Returns a sharpness below 1 as a fraction, with 0 as 0/1. Returns `None` for a sharpness of 1 or more.
fn below_one(s: Sharpness) -> Option<(u64, u64)>
    ensures { IsBelowOne (sharpness_of s) result }
{
    match s {
        Sharpness::Smooth => Some((0, 1)),
        Sharpness::Semi(value) => {
            if value.num() < value.den() {
                Some((value.num(), value.den()))
            } else {
                None
            }
        }
        Sharpness::Infinite => None,
    }
}

// Returns the fraction of an edge whose faces have weights, and `None` where only its ends have weights.
fn part_below_one(scheme: Scheme, s: Sharpness) -> Option<(u64, u64)>
    ensures { IsPartBelowOne (scheme_of scheme) (sharpness_of s) result }
{
    match scheme {
        Scheme::CatmullClark => below_one(s),
        Scheme::Linear => None,
    }
}

impl MadeMask {
    // Makes the mean of the two ends.
    fn put_middle(&mut self, ends: (u32, u32))
        ensures { self.new ≡ ends_over ends }
    {
        self.terms[0] = point(ends.0, 1);
        self.terms[1] = point(ends.1, 1);
        self.len = 2;
        self.denominator = 2;
    }

    // Makes the mask of the ends and the two faces, for a sharpness x/y below 1.
    fn put_beside(&mut self, ends: (u32, u32), faces: (u32, u32), part: (u64, u64))
        requires { part.0 < part.1 }
        ensures { self.new ≡ around_over part.0 part.1 ends faces }
    {
        let (x, y) = part;
        let end = y as u128 + x as u128;
        let face = (y - x) as u128;
        self.terms[0] = point(ends.0, end);
        self.terms[1] = point(ends.1, end);
        self.terms[2] = face_point(faces.0, face);
        self.terms[3] = face_point(faces.1, face);
        self.len = 4;
        self.denominator = 4 * y as u128;
    }

    /// Makes the mask of edge `e`, counted from 0. Under Catmull and Clark's scheme the edge needs two faces or a sharpness
    /// of at least 1. The call replaces the mask made before, cannot fail and takes no memory.
    pub fn put_edge(&mut self, level: &Level, e: u32, scheme: Scheme)
        requires known { e < length (edges_of level.now.level.polygons) }
        requires inside { scheme_of scheme ≡ CatmullClark
            → (length (faces_of_edge_at level.now.level.polygons e) ≡ 2)
            ⊎ IsTrue (is_at_least_one (get_or level.now.level.edge_sharpness e Smooth)) }
        ensures { IsMask self.new (edge_mask level.now.level (scheme_of scheme) (edge_at level.now.level.polygons e)) }
    {
        level.facts();
        let ends = level.edge_vertices(e);
        let Some(part) = part_below_one(scheme, level.edge_sharpness(e)) else {
            return self.put_middle(ends);
        };
        let faces = level.edge_faces(e);
        let Some(second) = faces.second else {
            return self.put_middle(ends);
        };
        self.put_beside(ends, (faces.first, second), part);
    }
}
