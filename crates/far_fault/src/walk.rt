//! The fault of a walk over levels as the fault of a run.

ghost use Rattle.std.specs.Prelude.{◌≡◌};
ghost use Rattle.far_fault.specs.View.{fault_of, track_of};
ghost use Rattle.far_fault.specs.Walk.{walk_fault_of};

use crate::fault::{FarFault, Track};
use level_topology::Counted;
use level_walk::{Cause, WalkFault};

/// Returns the fault of a run for the fault of a walk over the levels of a track. A number that passes its bound gives `Overflow` with
/// the track. Too many faces or entries give `TooLarge`, without the track.
///
/// The level is the first that the walk did not reach, counted from 1. `Memory` names no level.
pub fn fault_of_walk(fault: WalkFault, track: Track) -> FarFault
    ensures { fault_of result ≡ walk_fault_of (track_of track) fault }
{
    let level = fault.level;
    match fault.cause {
        Cause::TooManyFaces { count } => FarFault::TooLarge(Counted::LevelFaces { level, count }),
        Cause::TooManyEntries => FarFault::TooLarge(Counted::Entries { level }),
        Cause::Overflow(kind) => FarFault::Overflow { track, level, kind },
        Cause::Memory => FarFault::Memory,
    }
}
