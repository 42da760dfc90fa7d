//! The trait by which a caller supplies masks over the points of a level.

ghost use Rattle.std.specs.Prelude.{◌≡◌, ◌-◌, ◌^◌, ◌<◌, ◌≤◌, [], ◌++◌, ◌∷◌, List, length, OnErr, OnOk};
ghost use Rattle.subdiv_model.specs.Mask.{OfPoint, weigh};
ghost use Rattle.stencil_factory.specs.MaskRows.{mask_at, AreWeightsOf};
ghost use Rattle.stencil_factory.specs.Joined.{terms_of_shares};

use ratio128::Memory;
use std::alloc::Global;
use std::marker::Model;

/// The mask of one row: a list of points with their weights, over one denominator.
#[derive(Drop)]
pub struct PointWeights {
    weights: Vec<(u32, u128)>,
    denominator: u128,
}

impl Model for PointWeights {
    ghost use Rattle.std.specs.Prelude.{◌-◌, ◌^◌, ◌≤◌};
    ghost use Rattle.subdiv_model.specs.Mask.{Mask};
    ghost use Rattle.stencil_factory.specs.Joined.{terms_of_shares};

    ghost Value = { Mask };

    ghost view = { λ w. record { terms = terms_of_shares w.weights.items; denominator = w.denominator } };

    ghost invariant = { λ w. w.denominator ≤ 2 ^ 128 - 1 };
}

impl PointWeights {
    /// Returns an empty list over the denominator 0.
    pub(crate) fn new(alloc: Global) -> PointWeights
        ensures { result ≡ record { terms = []; denominator = 0 } }
    {
        PointWeights {
            weights: Vec::new(alloc),
            denominator: 0,
        }
    }

    /// Removes all weights and sets the denominator.
    pub fn start(&mut self, denominator: u128)
        ensures { self.new ≡ record { terms = []; denominator = denominator } }
    {
        self.weights.clear();
        self.denominator = denominator;
    }

    /// Appends a point with its weight. A point may occur more than once: its weights add up. A weight may be 0.
    ///
    /// The error is `Memory`: memory ran out, and the weights are unchanged.
    pub fn put(&mut self, point: u32, weight: u128) -> Result<(), Memory>
        ensures added { OnOk result (self.new ≡ record { terms = self.old.terms ++ weigh weight (OfPoint point) ∷ []; denominator = self.old.denominator }) }
        ensures unchanged { OnErr result (self.new ≡ self.old) }
    {
        self.weights.push((point, weight))?;
        Ok(())
    }

    /// Returns the points with their weights, in the order they came.
    pub(crate) fn weights(&self) -> &[(u32, u128)]
        ensures terms { terms_of_shares result.now ≡ self.now.terms }
        ensures short { self.now.denominator ≤ 2 ^ 128 - 1 }
    {
        &self.weights
    }

    /// Returns the denominator.
    pub(crate) fn denominator(&self) -> u128
        ensures { result ≡ self.now.denominator }
    {
        self.denominator
    }
}

/// Masks over the points of a level. [`compose_masks`](crate::compose_masks) makes one row of each mask.
pub trait PointMasks {
    ghost use Rattle.std.specs.Prelude.{List};
    ghost use Rattle.subdiv_model.specs.Level.{Level};
    ghost use Rattle.subdiv_model.specs.Mask.{Mask};

    /// The level whose points the masks use.
    ghost level: { Self → Level };

    /// The masks, in the order of the rows.
    ghost masks: { Self → List Mask };

    /// Returns the number of masks, at most 2^30.
    fn count(&self) -> u32
        ensures count { result ≡ length (masks self.now) }
        ensures few { result ≤ 2 ^ 30 };

    /// Replaces `weights` by the weights of mask `row`, counted from 0. Call [`PointWeights::start`], then [`PointWeights::put`].
    ///
    /// Every point is a point of the level. The weights sum to the denominator, which is above 0. The error is `Memory`.
    fn put(&self, row: u32, weights: &mut PointWeights) -> Result<(), Memory>
        requires { row < length (masks self.now) }
        ensures { OnOk result (AreWeightsOf (level self.now).point_count (mask_at (masks self.now) row) weights.new) };
}
