//! Implements `RowMasks` for masks that the caller supplies.

use crate::place_set::PlaceSet;
use crate::point_masks::{PointMasks, PointWeights};
use crate::rows::RowMasks;
use crate::weights::{add_weights, name_weights};
use number_width::Natural;
use place_sums::PlaceSums;
use ratio128::{Memory, quotient};
use std::alloc::Global;

/// The masks that the caller supplies.
#[derive(Drop)]
pub(crate) struct PointRows<'a, M> {
    pub(crate) masks: &'a M,
}

impl<M: PointMasks> RowMasks for PointRows<'_, M> {
    type Buffer = PointWeights;

    ghost level = { λ r. M.level r.masks.now };

    ghost masks = { λ r. M.masks r.masks.now };

    ghost IsReady = { λ r. Unit {0} };

    ghost IsFound = { λ r dens. Unit {0} };

    ghost IsClear = { λ r buffer. Unit {0} };

    fn buffer(&self, alloc: Global) -> Result<PointWeights, Memory> {
        Ok(PointWeights::new(alloc))
    }

    fn count(&self) -> u32 {
        self.masks.count()
    }

    fn name(
        &self,
        row: u32,
        buffer: &mut PointWeights,
        members: &mut PlaceSet,
    ) -> Result<(), Memory> {
        self.masks.put(row, buffer)?;
        members.start();
        name_weights(members, buffer.weights())
    }

    fn weigh<T: Natural>(
        &self,
        row: u32,
        den: u128,
        dens: &[u128],
        buffer: &mut PointWeights,
        sums: &mut PlaceSums<T>,
    ) -> Result<(), Memory> {
        self.masks.put(row, buffer)?;
        let multiple = quotient(den, buffer.denominator());
        add_weights(sums, buffer.weights(), multiple, dens);
        Ok(())
    }
}
