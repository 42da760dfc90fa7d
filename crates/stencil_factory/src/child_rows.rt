//! Implements `RowMasks` for a refinement step: one mask for each point of the child.

use crate::name::name_point;
use crate::place_set::PlaceSet;
use crate::rows::RowMasks;
use crate::weigh::weigh_mask;
use child_masks::Survey;
use level_topology::{Child, Level};
use mask_rules::{MadeMask, Scheme};
use number_width::Natural;
use place_sums::PlaceSums;
use ratio128::Memory;
use std::alloc::Global;

/// A refinement step: the parent, its child, the scheme, and the survey with the masks and denominators of the child's points.
#[derive(Drop)]
pub(crate) struct ChildRows<'a> {
    pub(crate) parent: &'a Level,
    pub(crate) child: &'a Child,
    pub(crate) scheme: Scheme,
    pub(crate) survey: &'a Survey,
}

impl RowMasks for ChildRows<'_> {
    type Buffer = MadeMask;

    ghost use Rattle.mask_rules.specs.View.{scheme_of};
    ghost use Rattle.child_masks.specs.Masks.{CanRefine, masks_from};
    ghost use Rattle.child_masks.specs.MaskOf.{AreKeptFor};
    ghost use Rattle.child_masks.specs.Survey.{IsSurvey};

    ghost level = { λ r. r.parent.now.level };

    ghost masks = { λ r. masks_from r.parent.now.level (scheme_of r.scheme) r.child.now.origins };

    ghost IsReady = { λ r. CanRefine r.parent.now r.child.now (scheme_of r.scheme) × AreKeptFor r.parent.now (scheme_of r.scheme) r.child.now.origins r.survey.now.masks };

    ghost IsFound = { λ r dens. IsSurvey r.parent.now (scheme_of r.scheme) r.child.now.origins dens r.survey.now };

    ghost IsClear = { λ r buffer. Unit {0} };

    fn buffer(&self, alloc: Global) -> Result<MadeMask, Memory> {
        Ok(MadeMask::new())
    }

    fn count(&self) -> u32 {
        self.child.facts();
        self.child.level().points()
    }

    fn name(&self, row: u32, buffer: &mut MadeMask, members: &mut PlaceSet) -> Result<(), Memory> {
        name_point(
            self.parent,
            self.child,
            row,
            self.scheme,
            self.survey,
            buffer,
            members,
        )
    }

    fn weigh<T: Natural>(
        &self,
        row: u32,
        den: u128,
        dens: &[u128],
        buffer: &mut MadeMask,
        sums: &mut PlaceSums<T>,
    ) -> Result<(), Memory> {
        weigh_mask(
            self.parent,
            self.child,
            row,
            self.scheme,
            self.survey,
            den,
            buffer,
            dens,
            sums,
        );
        Ok(())
    }
}
