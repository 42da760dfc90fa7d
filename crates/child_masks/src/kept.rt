//! Masks of vertices, kept in the order in which they were made.

ghost use Rattle.std.specs.Prelude.{◌≡◌, ◌+◌, ◌<◌, ◌≤◌, ◌^◌, Some, None, List, ◌∷◌, ◌++◌, length, get_or, replicate, set, IfOk, OnOk, OnErr, MatchOption};
ghost use Rattle.mask_rules.specs.View.{terms_of, seen_vertex};
ghost use Rattle.mask_rules.specs.declared.mask.Term.{Term};
ghost use Rattle.child_masks.specs.Kept.{IsPushed};
ghost use Rattle.child_masks.specs.View.{seen_kept};

use mask_rules::{Term, VertexMask};
use ratio128::Memory;
use std::alloc::Global;
use std::marker::Model;

// The start and the end of a mask's terms in the list of all terms, and the mask's denominator.
#[derive(Clone, Copy)]
pub(crate) struct Kept {
    start: usize,
    end: usize,
    denominator: u128,
}

/// The kept masks, by the vertices of the parent.
#[derive(Drop)]
pub struct KeptMasks {
    places: Vec<u32>,
    masks: Vec<Kept>,
    terms: Vec<Term>,
}

impl Model for KeptMasks {
    ghost use Rattle.child_masks.specs.Kept.{KeptList, list_in, AreKept};

    ghost Value = { KeptList };

    ghost view = { λ k. list_in k.places.items k.masks.items k.terms.items };

    ghost invariant = { λ k. AreKept k.places.items k.masks.items k.terms.items };
}

/// A kept mask.
#[derive(Drop)]
pub struct KeptMask<'a> {
    terms: &'a [Term],
    denominator: u128,
}

impl KeptMask<'_> {
    /// Returns the terms. Each source occurs once, with a weight above 0.
    pub fn terms(&self) -> &[Term]
        ensures { terms_of result.now ≡ (seen_kept self.now).terms }
    {
        self.terms
    }

    /// Returns the denominator, which is the sum of the weights.
    pub fn denominator(&self) -> u128
        ensures { result ≡ (seen_kept self.now).denominator }
    {
        self.denominator
    }
}

// Adds a mask after the others.
fn push_mask(masks: &mut Vec<Kept>, terms: &mut Vec<Term>, mask: &VertexMask) -> Result<(), Memory>
    ensures pushed { OnOk result (IsPushed (seen_vertex mask.now) masks.old.items terms.old.items masks.new.items terms.new.items) }
    ensures failed { OnErr result ((masks.new.items ≡ masks.old.items) × (length terms.old.items ≤ length terms.new.items)) }
{
    let start = terms.len();
    terms.extend_from_slice(mask.terms())?;
    masks.push(Kept {
        start,
        end: terms.len(),
        denominator: mask.denominator(),
    })?;
    Ok(())
}

impl KeptMasks {
    /// Returns an empty list for this many vertices.
    pub(crate) fn new(alloc: Global, vertices: u32) -> Result<KeptMasks, Memory>
        ensures { IfOk result (λ kept. kept ≡ record { masks = replicate vertices None; count = 0 }) }
    {
        Ok(KeptMasks {
            places: vec![in alloc; 0; vertices as usize]?,
            masks: Vec::new(alloc),
            terms: Vec::new(alloc),
        })
    }

    /// Records that the vertex has no kept mask.
    pub(crate) fn leave(&mut self, v: u32)
        requires { v < length self.old.masks }
        ensures { self.new ≡ record { masks = set self.old.masks v None; count = self.old.count } }
    {
        self.places[v as usize] = 0;
    }

    /// Keeps the mask of the vertex.
    pub(crate) fn keep(&mut self, v: u32, mask: &VertexMask) -> Result<(), Memory>
        requires known { v < length self.old.masks }
        requires few { self.old.count + 1 < 2 ^ 32 }
        ensures { OnOk result (self.new ≡ record { masks = set self.old.masks v (Some (seen_vertex mask.now)); count = self.old.count + 1 }) }
    {
        push_mask(&mut self.masks, &mut self.terms, mask)?;
        self.places[v as usize] = self.masks.len() as u32;
        Ok(())
    }

    /// Returns the mask of the vertex, if it is kept.
    pub(crate) fn find(&self, v: u32) -> Option<KeptMask<'_>>
        requires { v < length self.now.masks }
        ensures { MatchOption result
            (get_or self.now.masks v None ≡ None)
            (λ mask. get_or self.now.masks v None ≡ Some (seen_kept mask)) }
    {
        let place = self.places[v as usize];
        if place == 0 {
            return None;
        }
        let kept = self.masks[place as usize - 1];
        Some(KeptMask {
            terms: &self.terms[kept.start..kept.end],
            denominator: kept.denominator,
        })
    }
}
