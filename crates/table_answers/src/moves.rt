//! A move of a control point.

ghost use Rattle.std.specs.Prelude.{◌<◌};
ghost use Rattle.stencil_session.specs.Session.{numbers_of};
ghost use Rattle.table_answers.specs.FrameMoves.{Moves};

use far_fault::{FarFault, Track};
use level_walk::OverflowKind;
use ratio128::{Point3, Steps};
use std::sync::ledger::Ledger;
use stencil_session::{Session, TooGreat};

/// Moves a control point of the mesh. The fault is the overflow of a value at this depth. The call takes no memory.
pub(crate) fn move_control<L: Ledger>(
    session: &mut Session,
    index: u32,
    point: Point3,
    depth: u32,
    steps: &mut Steps<L>,
) -> Result<(), FarFault>
    requires { index < session.old.table.controls }
    ensures { Moves depth session.old session.new (index, numbers_of point) result steps.old steps.new }
{
    session.facts();
    match session.move_known(index, point, steps) {
        Ok(()) => {
            session.facts();
            Ok(())
        }
        Err(TooGreat) => Err(FarFault::Overflow {
            track: Track::Positions,
            level: depth,
            kind: OverflowKind::Value,
        }),
    }
}
