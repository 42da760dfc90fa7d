//! The trait of masks that the crate composes rows from: those of a child, or those of the caller.

ghost use Rattle.std.specs.Prelude.{◌≡◌, ◌+◌, ◌^◌, ◌<◌, ◌≤◌, ℕ, List, length, replicate, IfOk, OnOk};
ghost use Rattle.subdiv_model.specs.Refined.{mask_denominator, source_denominator};
ghost use Rattle.subdiv_model.specs.Channel.{number_bound};
ghost use Rattle.child_masks.specs.Found.{ArePointDenominators};
ghost use Rattle.stencil_factory.specs.Flat.{IsWeighed};
ghost use Rattle.stencil_factory.specs.Named.{AreNamed};
ghost use Rattle.stencil_factory.specs.MaskRows.{mask_at};

use crate::place_set::PlaceSet;
use number_width::Natural;
use place_sums::PlaceSums;
use ratio128::Memory;
use std::alloc::Global;

/// Masks over the points of a level, one for each row.
pub(crate) trait RowMasks {
    /// The buffer for the mask of one row.
    type Buffer: Drop;

    ghost use Rattle.std.specs.Prelude.{List};
    ghost use Rattle.subdiv_model.specs.Level.{Level};
    ghost use Rattle.subdiv_model.specs.Mask.{Mask};

    /// The level whose points the masks use.
    ghost level: { Self → Level };

    /// The masks, in the order of the rows.
    ghost masks: { Self → List Mask };

    /// The calls below can be made.
    ghost IsReady: { Self → Type 0 };

    /// The value was prepared with these denominators of the level's points.
    ghost IsFound: { Self → List ℕ → Type 0 };

    /// The buffer can take the mask of another row.
    ghost IsClear: { Self → Self.Buffer → Type 0 };

    /// Returns a buffer for the mask of one row.
    fn buffer(&self, alloc: Global) -> Result<Self::Buffer, Memory>
        requires { IsReady self.now }
        ensures { IfOk result (λ buffer. IsClear self.now buffer) };

    /// Returns the number of masks, at most 2^30.
    fn count(&self) -> u32
        requires { IsReady self.now }
        ensures count { result ≡ length (masks self.now) }
        ensures few { result ≤ 2 ^ 30 };

    /// Empties the set `members`, then adds the points that mask `row` names.
    fn name(
        &self,
        row: u32,
        buffer: &mut Self::Buffer,
        members: &mut PlaceSet,
    ) -> Result<(), Memory>
        requires ready { IsReady self.now }
        requires known { row < length (masks self.now) }
        requires clear { IsClear self.now buffer.old }
        requires count { members.old.count ≡ (level self.now).point_count }
        requires mark { members.old.mark + 1 < 2 ^ 32 }
        ensures named { OnOk result (AreNamed (level self.now) (mask_at (masks self.now) row) (members.old.mark + 1) members.new) }
        ensures clear { OnOk result (IsClear self.now buffer.new) };

    /// Adds the weights of mask `row` to `sums`, which has a 0 for each point of the level. `den` is the mask's common
    /// denominator, and `dens` are the denominators of the points. Each weight is the factor for the row of its point.
    fn weigh<T: Natural>(
        &self,
        row: u32,
        den: u128,
        dens: &[u128],
        buffer: &mut Self::Buffer,
        sums: &mut PlaceSums<T>,
    ) -> Result<(), Memory>
        requires ready { IsReady self.now }
        requires found { IsFound self.now dens.now }
        requires known { row < length (masks self.now) }
        requires clear { IsClear self.now buffer.old }
        requires dens { ArePointDenominators (level self.now) dens.now }
        requires den { den ≡ mask_denominator (source_denominator (level self.now) dens.now) (mask_at (masks self.now) row) }
        requires short { den ≤ number_bound }
        requires fits { den ≤ T.most }
        requires zeros { sums.old ≡ replicate (level self.now).point_count 0 }
        ensures weighed { OnOk result (IsWeighed (level self.now) dens.now (mask_at (masks self.now) row) sums.new) }
        ensures clear { OnOk result (IsClear self.now buffer.new) };
}
