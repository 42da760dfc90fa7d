//! A bound on the common denominators of the limit points of a level.

ghost use Rattle.std.specs.Prelude.{◌≡◌, ◌<◌, ◌≤◌, length, IfSome};
ghost use Rattle.std.specs.List.{All};
ghost use Rattle.subdiv_model.specs.Multiples.{lcm_of_all};
ghost use Rattle.subdiv_model.specs.Channel.{number_bound};
ghost use Rattle.child_masks.specs.Survey.{within_bound};
ghost use Rattle.stencil_factory.specs.Rows.{dens_of};
ghost use Rattle.limit_stencils.specs.Bound.{greatest_valence, mask_bound, denominator_bound};
ghost use Rattle.limit_stencils.specs.Limits.{IsDenominatorBound};

use child_masks::common_multiple;
use level_topology::Level;
use ratio128::times_within;
use stencil_apply::StencilTable;

// The greatest signed 64-bit number.
const WORD_BOUND: u128 = (1 << 63) - 1;

// Returns the least common multiple of the denominators, or 0 if it is above 2^126 - 1.
fn multiple_of(dens: &[u128]) -> u128
    requires positive { All (λ den. 0 < den) dens.now }
    requires short { All (λ den. den ≤ number_bound) dens.now }
    ensures { result ≡ within_bound (lcm_of_all dens.now) }
{
    let mut multiple = 1;
    for den in dens {
        multiple = common_multiple(multiple, *den);
    }
    multiple
}

// Returns the greatest number of edges at a point, or 0 for a level without points.
fn greatest_valence(level: &Level) -> u32
    ensures { result ≡ greatest_valence level.now.level }
{
    let mut greatest = 0;
    for v in 0..level.points() {
        greatest = greatest.max(level.valence(v));
    }
    greatest
}

// Returns the greatest denominator that a limit mask can have, by the greatest number of edges at a point.
fn mask_bound(level: &Level) -> u128
    ensures { result ≡ mask_bound (greatest_valence level.now.level) }
{
    let valence = u128::from(greatest_valence(level));
    (valence * (valence + 5)).max(6)
}

/// Returns a number above 0 that the common denominator of no limit point of the level passes. Returns `None` exactly where this number
/// is above 2^63 - 1. The call takes no memory.
///
/// `table` has a row for each point of the level. The number is a product. One factor is the least common multiple of all denominators of
/// `table`. The other factor bounds the denominators of limit masks: it is the greater of 6 and `n * (n + 5)`, where `n` is the greatest
/// number of edges at a point.
pub fn denominator_bound(level: &Level, table: &StencilTable) -> Option<u128>
    requires { length table.now.rows ≡ level.now.level.point_count }
    ensures is { result ≡ denominator_bound level.now.level (dens_of table.now) }
    ensures bound { IfSome result (IsDenominatorBound level.now.level table.now) }
{
    table.facts();
    let multiple = multiple_of(table.denominators());
    if multiple == 0 {
        return None;
    }
    times_within(mask_bound(level), multiple, WORD_BOUND)
}
