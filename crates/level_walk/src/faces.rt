//! Counts of faces.

ghost use Rattle.std.specs.Prelude.{◌≡◌};
ghost use Rattle.subdiv_model.specs.LevelText.{hole_count};

use level_topology::Level;

// Returns the number of faces that are holes.
pub(crate) fn hole_count(level: &Level) -> u32
    ensures { result ≡ hole_count level.now.level }
{
    let mut count = 0;
    for f in 0..level.faces() {
        count += u32::from(level.is_hole(f));
    }
    count
}
