//! Tables that can be evaluated over the points of a mesh.

ghost use Rattle.std.specs.Prelude.{MatchResult};
ghost use Rattle.subdiv_model.specs.Fault.{Overflow, ValueOverflow};
ghost use Rattle.far_fault.specs.View.{track_of};
ghost use Rattle.mesh_answers.specs.Tables.{IsFitting, IsUnfitting};

use far_fault::{FarFault, OverflowKind, Track};
use stencil_apply::{StencilTable, scale_fits};

/// Returns the table if its greatest denominator times `most` is at most 2^126 - 1. Else the error is `Overflow` of the kind `Value`,
/// with this track and level.
pub fn fitting(
    table: StencilTable,
    most: u128,
    track: Track,
    level: u32,
) -> Result<StencilTable, FarFault>
    ensures { MatchResult result (IsFitting table most) (IsUnfitting table most (Overflow (track_of track) level ValueOverflow)) }
{
    table.facts();
    if scale_fits(&table, most) {
        return Ok(table);
    }
    // The prover proves a named drop once for each type.
    drop(table);
    Err(FarFault::Overflow {
        track,
        level,
        kind: OverflowKind::Value,
    })
}
