//! The survey of child points: their denominators, before any value is made.

ghost use Rattle.std.specs.Prelude.{◌≡◌, ℕ, ◌^◌, ◌<◌, false, List, [], length, get_or, OnOk, MatchResult, IfOk};
ghost use Rattle.std.specs.List.{All};
ghost use Rattle.subdiv_model.specs.Mask.{vertex_mask};
ghost use Rattle.subdiv_model.specs.Mask as model;
ghost use Rattle.level_topology.specs.Child.{FromVertex, FromEdge};
ghost use Rattle.level_topology.specs.ChildTables.{origin_of};
ghost use Rattle.mask_rules.specs.View.{scheme_of, source_of, terms_of};
ghost use Rattle.mask_rules.specs.Smooth.{IsPlainAt};
ghost use Rattle.mask_rules.specs.Masks.{IsMask};
ghost use Rattle.child_masks.specs.Masks.{CanRefine, origin_at};
ghost use Rattle.child_masks.specs.View.{seen_terms};
ghost use Rattle.child_masks.specs.MaskOf.{IsMaskOf, IsKeptFor, AreKeptFor};
ghost use Rattle.child_masks.specs.Survey.{within_bound, IsSurvey, IsSurveyFault};
ghost use Rattle.child_masks.specs.Found.{IsAmong, ArePointDenominators, IsAdded, IsMaskAdded, IsPointAdded, CanAdd, IsSurveyOf, IsPointFault};
ghost use Rattle.child_masks.specs.Known.{IsVertexKnown, IsEdgeKnown, IsPartKnown};

use crate::common::scaled;
use crate::dens::first_zero;
use crate::face::face_denominators;
use crate::fault::SurveyFault;
use crate::kept::KeptMasks;
use crate::masks::{PointMask, TermMask};
use crate::terms::{mark_faces, multiple_of_terms};
use crate::transition::least_refused;
use level_topology::{Child, Level, Origin};
use mask_rules::{MadeMask, MaskFault, Scheme, Term, is_plain, vertex_mask};
use ratio128::Memory;
use std::alloc::Global;

/// The result of a survey of the child points of a level.
#[derive(Drop)]
pub struct Survey {
    /// The common denominator of each child point, in the order of the points.
    pub dens: Vec<u128>,
    /// The common denominator of the new point of each face of the parent, or 0 if it is above 2^126 - 1.
    pub faces: Vec<u128>,
    /// For each face of the parent, whether the mask of some child point uses its new point.
    pub named: Vec<bool>,
    masks: KeptMasks,
}

impl Survey {
    // Starts a survey with the denominators of the faces, and no child point.
    fn start(alloc: Global, parent: &Level, dens: &[u128], points: u32) -> Result<Survey, Memory>
        requires { ArePointDenominators parent.now.level dens.now }
        ensures { IfOk result (λ survey. (scheme : model.Scheme) → IsSurveyOf parent.now scheme [] dens.now survey) }
    {
        let faces = face_denominators(alloc, parent, dens)?;
        let named = vec![in alloc; false; parent.faces() as usize]?;
        let masks = KeptMasks::new(alloc, parent.points())?;
        Ok(Survey {
            dens: Vec::with_capacity(alloc, points as usize)?,
            faces,
            named,
            masks,
        })
    }

    // Adds the mask of a child point.
    fn add_mask(&mut self, dens: &[u128], terms: &[Term], denominator: u128) -> Result<(), Memory>
        requires among { All (λ t. IsAmong (length dens.now) (length self.old.faces.items) (source_of t.at)) terms.now }
        requires beside { length self.old.named.items ≡ length self.old.faces.items }
        ensures added { OnOk result (IsMaskAdded dens.now (record { terms = terms_of terms.now; denominator = denominator }) self.old self.new) }
        ensures masks { self.new.masks ≡ self.old.masks }
    {
        let multiple = multiple_of_terms(terms, dens, &self.faces);
        self.dens.push(scaled(denominator, multiple))?;
        mark_faces(&mut self.named, terms);
        Ok(())
    }

    // Adds a child point of a plain vertex.
    fn add_plain(
        &mut self,
        parent: &Level,
        v: u32,
        scheme: Scheme,
        dens: &[u128],
        made: &mut MadeMask,
    ) -> Result<(), Memory>
        requires known { IsVertexKnown parent.now (scheme_of scheme) v }
        requires plain { IsPlainAt parent.now (scheme_of scheme) v }
        requires can { CanAdd parent.now dens.now self.old }
        ensures { OnOk result (IsPointAdded parent.now (scheme_of scheme) dens.now (FromVertex v) self.old self.new) }
    {
        parent.facts();
        made.put_plain(parent, v, scheme);
        self.add_mask(dens, made.terms(), made.denominator())?;
        self.masks.leave(v);
        Ok(())
    }

    // Adds a child point of a vertex, and keeps its mask.
    fn add_kept(
        &mut self,
        alloc: Global,
        parent: &Level,
        v: u32,
        scheme: Scheme,
        dens: &[u128],
    ) -> Result<(), SurveyFault>
        requires known { IsVertexKnown parent.now (scheme_of scheme) v }
        requires can { CanAdd parent.now dens.now self.old }
        ensures { MatchResult result
            (λ _. IsPointAdded parent.now (scheme_of scheme) dens.now (FromVertex v) self.old self.new)
            (IsPointFault parent.now.level (scheme_of scheme) (FromVertex v)) }
    {
        parent.facts();
        match &vertex_mask(alloc, parent, v, scheme) {
            Ok(mask) => {
                self.add_mask(dens, mask.terms(), mask.denominator())?;
                self.masks.keep(v, mask)?;
                Ok(())
            }
            Err(MaskFault::Transition) => Err(SurveyFault::Transition(v)),
            Err(MaskFault::Memory) => Err(SurveyFault::Memory),
        }
    }

    // Adds a child point of a vertex.
    fn add_vertex(
        &mut self,
        alloc: Global,
        parent: &Level,
        v: u32,
        scheme: Scheme,
        dens: &[u128],
        made: &mut MadeMask,
    ) -> Result<(), SurveyFault>
        requires known { IsVertexKnown parent.now (scheme_of scheme) v }
        requires can { CanAdd parent.now dens.now self.old }
        ensures { MatchResult result
            (λ _. IsPointAdded parent.now (scheme_of scheme) dens.now (FromVertex v) self.old self.new)
            (IsPointFault parent.now.level (scheme_of scheme) (FromVertex v)) }
    {
        if !is_plain(parent, v, scheme) {
            return self.add_kept(alloc, parent, v, scheme, dens);
        }
        self.add_plain(parent, v, scheme, dens, made)?;
        Ok(())
    }

    // Adds a child point of an edge.
    fn add_edge(
        &mut self,
        parent: &Level,
        e: u32,
        scheme: Scheme,
        dens: &[u128],
        made: &mut MadeMask,
    ) -> Result<(), Memory>
        requires known { IsEdgeKnown parent.now (scheme_of scheme) e }
        requires can { CanAdd parent.now dens.now self.old }
        ensures { OnOk result (IsPointAdded parent.now (scheme_of scheme) dens.now (FromEdge e) self.old self.new) }
    {
        parent.facts();
        made.put_edge(parent, e, scheme);
        self.add_mask(dens, made.terms(), made.denominator())
    }

    // Adds a child point of a face. Its mask uses no face.
    fn add_face(&mut self, f: u32) -> Result<(), Memory>
        requires { f < length self.old.faces.items }
        ensures added { OnOk result ((den : ℕ) → 0 < den → get_or self.old.faces.items f 0 ≡ within_bound den → IsAdded den [] self.old self.new) }
        ensures masks { self.new.masks ≡ self.old.masks }
    {
        self.dens.push(self.faces[f as usize])?;
        Ok(())
    }

    // Adds a child point, by its origin.
    fn add_point(
        &mut self,
        alloc: Global,
        parent: &Level,
        origin: Origin,
        scheme: Scheme,
        dens: &[u128],
        made: &mut MadeMask,
    ) -> Result<(), SurveyFault>
        requires known { IsPartKnown parent.now (scheme_of scheme) (origin_of origin) }
        requires can { CanAdd parent.now dens.now self.old }
        ensures { MatchResult result
            (λ _. IsPointAdded parent.now (scheme_of scheme) dens.now (origin_of origin) self.old self.new)
            (IsPointFault parent.now.level (scheme_of scheme) (origin_of origin)) }
    {
        parent.facts();
        match origin {
            Origin::Vertex(v) => self.add_vertex(alloc, parent, v, scheme, dens, made),
            Origin::Edge(e) => {
                self.add_edge(parent, e, scheme, dens, made)?;
                Ok(())
            }
            Origin::Face(f) => {
                self.add_face(f)?;
                Ok(())
            }
        }
    }
}

impl Survey {
    // Returns the mask of a vertex, and makes it unless it is kept.
    fn mask_of_vertex(
        &self,
        parent: &Level,
        v: u32,
        scheme: Scheme,
        made: &mut MadeMask,
    ) -> TermMask<'_>
        requires known { IsVertexKnown parent.now (scheme_of scheme) v }
        requires counted { length self.now.masks.masks ≡ parent.now.level.point_count }
        requires kept { IsKeptFor parent.now (scheme_of scheme) v (get_or self.now.masks.masks v None) }
        ensures { IsMask (seen_terms made.new result) (vertex_mask parent.now.level (scheme_of scheme) v) }
    {
        match self.masks.find(v) {
            Some(mask) => TermMask::Kept(mask),
            None => {
                made.put_plain(parent, v, scheme);
                TermMask::Made
            }
        }
    }

    /// Returns the mask of child point `p`, counted from 0: a kept one, or one that it makes in `made`. `parent`, `child` and
    /// `scheme` are those of the survey. The call takes no memory and reads no sharpness of a vertex.
    pub fn mask(
        &self,
        parent: &Level,
        child: &Child,
        p: u32,
        scheme: Scheme,
        made: &mut MadeMask,
    ) -> PointMask<'_>
        requires child { CanRefine parent.now child.now (scheme_of scheme) }
        requires known { p < length child.now.origins }
        requires kept { AreKeptFor parent.now (scheme_of scheme) child.now.origins self.now.masks }
        ensures { IsMaskOf parent.now.level (scheme_of scheme) (origin_at child.now.origins p) made.new result }
    {
        parent.facts();
        child.facts();
        match child.origin(p) {
            Origin::Vertex(v) => PointMask::Terms(self.mask_of_vertex(parent, v, scheme, made)),
            Origin::Edge(e) => {
                made.put_edge(parent, e, scheme);
                PointMask::Terms(TermMask::Made)
            }
            Origin::Face(f) => PointMask::Corners(f),
        }
    }
}

// Returns the fault of a whole step in which a child point has a fault.
fn fault_of_all(
    alloc: Global,
    parent: &Level,
    child: &Child,
    p: u32,
    scheme: Scheme,
    fault: SurveyFault,
) -> SurveyFault
    requires child { CanRefine parent.now child.now (scheme_of scheme) }
    requires known { p < length child.now.origins }
    requires fault { IsPointFault parent.now.level (scheme_of scheme) (get_or child.now.origins p (FromVertex 0)) fault }
    ensures { (dens : List ℕ) → IsSurveyFault parent.now.level (scheme_of scheme) child.now.origins dens result }
{
    child.facts();
    match fault {
        SurveyFault::Transition(v) => least_refused(alloc, parent, child, scheme, v),
        other => other,
    }
}

/// Returns the survey of a child of a level. `dens` has the denominator of each point of the level, from 1 to 2^126 - 1.
///
/// `child` is a child of `parent`. Each vertex with a child point is complete. Under Catmull and Clark's scheme each edge with a
/// child point has two faces or a sharpness of at least 1. At a vertex with a child point each edge of one face is then
/// infinitely sharp, and no half of an edge overflows.
///
/// Reports the first fault of these kinds, each over the whole level. `Transition` names the least vertex of the parent, of
/// those with a child point, whose mask is refused. `Denominator` names the least child point whose denominator is above
/// 2^126 - 1. Both count from 0. Reports `Memory` where memory runs out.
pub fn survey_over(
    alloc: Global,
    parent: &Level,
    child: &Child,
    dens: &[u128],
    scheme: Scheme,
) -> Result<Survey, SurveyFault>
    requires child { CanRefine parent.now child.now (scheme_of scheme) }
    requires dens { ArePointDenominators parent.now.level dens.now }
    ensures { MatchResult result
        (IsSurvey parent.now (scheme_of scheme) child.now.origins dens.now)
        (IsSurveyFault parent.now.level (scheme_of scheme) child.now.origins dens.now) }
{
    parent.facts();
    child.facts();
    let points = child.level().points();
    let mut survey = Survey::start(alloc, parent, dens, points)?;
    let mut made = MadeMask::new();
    for p in 0..points {
        let origin = child.origin(p);
        if let Err(fault) = survey.add_point(alloc, parent, origin, scheme, dens, &mut made) {
            return Err(fault_of_all(alloc, parent, child, p, scheme, fault));
        }
    }
    match first_zero(&survey.dens) {
        Some(p) => Err(SurveyFault::Denominator(p)),
        None => Ok(survey),
    }
}
