//! The first point without a limit mask.

ghost use Rattle.std.specs.Prelude.{◌<◌, ℕ, List};
ghost use Rattle.subdiv_model.specs.Limit.{cause_of_limit, limit_causes, limit_of};
ghost use Rattle.limit_stencils.specs.AtVertex.{IsTested, limit_by_rule};

use crate::fault::QuadFault;
use crate::lasting::{LastingRule, lasting_rule};
use crate::semi::has_semi_sharp;
use level_topology::Level;

// Tests a vertex, given its rule and whether it or one of its edges is semi-sharp.
fn check_rule(v: u32, semi: bool, rule: LastingRule) -> Result<(), QuadFault>
    ensures { (ends opposites : List ℕ) → IsTested (cause_of_limit (limit_by_rule v ends opposites semi rule)) result }
{
    match rule {
        LastingRule::Corner => Ok(()),
        LastingRule::Dart(_) => {
            if semi {
                Err(QuadFault::SemiSharp(v))
            } else {
                Err(QuadFault::Dart(v))
            }
        }
        LastingRule::Smooth | LastingRule::Crease(_, _) => {
            if semi {
                Err(QuadFault::SemiSharp(v))
            } else {
                Ok(())
            }
        }
    }
}

// Tests a vertex.
fn check_vertex(level: &Level, v: u32) -> Result<(), QuadFault>
    requires { v < level.now.level.point_count }
    ensures { IsTested (cause_of_limit (limit_of level.now.level v)) result }
{
    level.facts();
    check_rule(v, has_semi_sharp(level, v), lasting_rule(level, v))
}

/// Tests that each point has a limit mask. The error names the least point without one and the cause. The test takes no memory.
pub(crate) fn check_points(level: &Level) -> Result<(), QuadFault>
    ensures { IsTested (limit_causes level.now.level) result }
{
    level.facts();
    for v in 0..level.points() {
        check_vertex(level, v)?;
    }
    Ok(())
}
