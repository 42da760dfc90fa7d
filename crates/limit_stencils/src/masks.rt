//! The limit masks of a level.

ghost use Rattle.std.specs.Prelude.{◌≡◌, true, IsTrue, MatchResult};
ghost use Rattle.subdiv_model.specs.Limit.{has_quads, limit_causes};
ghost use Rattle.mask_laws.specs.SharpBoundary.{has_sharp_boundary};
ghost use Rattle.limit_stencils.specs.AtVertex.{IsFirstCause};
ghost use Rattle.limit_stencils.specs.Limits.{HasLimits};

use crate::cause::check_points;
use crate::fault::QuadFault;
use crate::smooth::is_smooth;
use crate::weigh::{put_limit, put_smooth};
use level_topology::Level;
use ratio128::Memory;
use std::marker::Model;
use stencil_factory::{PointMasks, PointWeights};

/// The limit masks of a level of quads. Each point has one, and each edge of one face is infinitely sharp. If `smooth` is true, each
/// point is smooth.
#[derive(Drop)]
pub(crate) struct LimitMasks<'a> {
    level: &'a Level,
    smooth: bool,
}

impl<'a> Model for LimitMasks<'a> {
    ghost use Rattle.level_topology.specs.Topology.{Topology};
    ghost use Rattle.limit_stencils.specs.Limits.{HasLimitMasks};

    ghost Value = { Topology };

    ghost view = { λ m. m.level.now };

    ghost invariant = { λ m. HasLimitMasks m.level.now m.smooth };
}

impl PointMasks for LimitMasks<'_> {
    ghost use Rattle.subdiv_model.specs.Limit.{limit_masks};

    ghost level = { λ m. m.level };

    ghost masks = { λ m. limit_masks m.level };

    fn count(&self) -> u32 {
        self.level.facts();
        self.level.points()
    }

    fn put(&self, row: u32, weights: &mut PointWeights) -> Result<(), Memory> {
        self.level.facts();
        if self.smooth {
            put_smooth(self.level, row, weights)
        } else {
            put_limit(self.level, row, weights)
        }
    }
}

/// Returns the limit masks of a level of quads. The error names the least point without one and the cause. The call takes no memory.
pub(crate) fn limit_masks(level: &Level) -> Result<LimitMasks<'_>, QuadFault>
    requires quads { has_quads level.now.level ≡ true }
    requires boundary { IsTrue (has_sharp_boundary level.now.level) }
    ensures { MatchResult result (λ masks. (masks ≡ level.now) × HasLimits level.now.level) (IsFirstCause (limit_causes level.now.level)) }
{
    level.facts();
    if is_smooth(level) {
        return Ok(LimitMasks {
            level,
            smooth: true,
        });
    }
    check_points(level)?;
    Ok(LimitMasks {
        level,
        smooth: false,
    })
}
