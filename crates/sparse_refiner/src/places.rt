//! The corners whose child faces are present.

ghost use Rattle.std.specs.Prelude.{◌≡◌, MatchResult};
ghost use Rattle.sparse_level.specs.Places.{marked};
ghost use Rattle.sparse_refiner.specs.Made.{AreInnerMarks, ArePresent, IsMadeRefusal};

use level_topology::FacePlace;
use ratio128::limits::FACE_LIMIT;
use sparse_level::{SparseLevel, count_places, mark_points, put_places};
use std::alloc::Global;
use uniform_refiner::RefineFault;

/// The marks of the selected faces, the marks of the vertices on them, and the corners with a marked vertex.
#[derive(Drop)]
pub(crate) struct PresentPlaces {
    pub(crate) selected: Vec<bool>,
    pub(crate) on: Vec<bool>,
    pub(crate) places: Vec<FacePlace>,
}

/// Returns the corners whose child faces are present, for these selected faces. Reports `TooLarge` where there are more than
/// 2^22.
pub(crate) fn find_places(
    alloc: Global,
    sparse: &SparseLevel,
    selected: Vec<bool>,
) -> Result<PresentPlaces, RefineFault>
    requires { AreInnerMarks sparse.now selected.items }
    ensures { MatchResult result (λ present. (present.selected.items ≡ selected.items) × ArePresent sparse.now present)
        (IsMadeRefusal sparse.now.topology (marked selected.items)) }
{
    let level = sparse.level();
    level.facts();
    let on = mark_points(alloc, level, &selected)?;
    let count = count_places(level, &on);
    if count > FACE_LIMIT {
        return Err(RefineFault::TooLarge(count));
    }
    let places = put_places(alloc, level, &on, count as u32)?;
    Ok(PresentPlaces {
        selected,
        on,
        places,
    })
}
