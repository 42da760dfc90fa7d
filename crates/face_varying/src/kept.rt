//! The channel points that the mode keeps sharp.

ghost use Rattle.std.specs.Prelude.{◌≡◌, false, replicate, IfOk};
ghost use Rattle.face_varying.specs.Cut.{ForEachMesh, AreKeptPoints};

use crate::kept_corners::single_points;
use crate::kept_ends::end_points;
use crate::mode::SeamMode;
use level_topology::Level;
use ratio128::Memory;
use std::alloc::Global;

// Returns marks of this many points, none of them set.
fn no_points(alloc: Global, points: usize) -> Result<Vec<bool>, Memory>
    ensures { IfOk result (λ marks. marks.items ≡ replicate points false) }
{
    let marks = vec![in alloc; false; points]?;
    Ok(marks)
}

// Returns for each channel point whether the mode keeps it sharp: none, those with one corner, or the ends of apart edges.
pub(crate) fn kept_points(
    alloc: Global,
    level: &Level,
    apart: &[bool],
    numbers: &[u32],
    points: u32,
    mode: SeamMode,
) -> Result<Vec<bool>, Memory>
    ensures { ForEachMesh level.now apart.now numbers.now points (λ mesh. IfOk result (λ kept. AreKeptPoints mode mesh kept.items)) }
{
    match mode {
        SeamMode::Smooth => no_points(alloc, points as usize),
        SeamMode::Corners => single_points(alloc, numbers, points as usize),
        SeamMode::Boundaries => end_points(alloc, level, apart, numbers, points as usize),
    }
}
