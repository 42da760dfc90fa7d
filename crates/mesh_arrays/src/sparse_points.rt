//! The points of levels.

ghost use Rattle.std.specs.Prelude.{◌≡◌, ◌*◌, ◌≤◌, length, map};
ghost use Rattle.std.specs.List.{All, sum_by};
ghost use Rattle.flat_arrays.specs.Words.{integer_of, natural_of};
ghost use Rattle.mesh_arrays.specs.Points.{all_denominators, all_numerators};
ghost use Rattle.mesh_arrays.specs.SparseFlat.{denominators_of, numerators_of, value_count, with_front};
ghost use Rattle.mesh_arrays.specs.SparsePlaces.{CanLevelBePut};

use crate::exact_points::put_exact_points;
use flat_arrays::Wide;
use ratio128::Point3;
use sparse_level::SparseValues;

// Fills arrays with the numerators and denominators of the points of a level.
fn fill_points(
    level: &SparseValues<Point3>,
    common: u128,
    numerators: &mut [Wide],
    denominators: &mut [Wide],
)
    requires fits { length numerators.old ≡ 3 * value_count level.now }
    requires dens_fit { length denominators.old ≡ value_count level.now }
    requires put { CanLevelBePut common level.now }
    ensures numerators { map integer_of numerators.new ≡ all_numerators level.now.values.items }
    ensures denominators { map natural_of denominators.new ≡ all_denominators common level.now.values.items }
    ensures len { length numerators.new ≡ length numerators.old }
    ensures dens_len { length denominators.new ≡ length denominators.old }
{
    put_exact_points(&level.values, common, numerators, denominators);
}

/// Writes the numerators of the points of all levels, x, y and z point by point, and the denominators into another array.
///
/// The first array has at least three places for each point, and the second at least one. The call leaves later places
/// unchanged.
pub(crate) fn put_points(
    levels: &[SparseValues<Point3>],
    common: u128,
    numerators: &mut [Wide],
    denominators: &mut [Wide],
)
    requires fits { 3 * sum_by value_count levels.now ≤ length numerators.old }
    requires dens_fit { sum_by value_count levels.now ≤ length denominators.old }
    requires put { All (CanLevelBePut common) levels.now }
    ensures numerators { map integer_of numerators.new ≡ with_front (numerators_of levels.now) (map integer_of numerators.old) }
    ensures denominators { map natural_of denominators.new ≡ with_front (denominators_of common levels.now) (map natural_of denominators.old) }
    ensures len { length numerators.new ≡ length numerators.old }
    ensures dens_len { length denominators.new ≡ length denominators.old }
{
    let mut at = 0;
    for level in levels {
        let len = level.values.len();
        fill_points(
            level,
            common,
            &mut numerators[3 * at..3 * at + 3 * len],
            &mut denominators[at..at + len],
        );
        at += len;
    }
}
