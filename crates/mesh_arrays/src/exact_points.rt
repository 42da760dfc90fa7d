//! The whole numerators and denominators of points.

ghost use Rattle.std.specs.Prelude.{◌≡◌, ◌+◌, ◌*◌, ◌≤◌, ◌++◌, length, map, take, drop};
ghost use Rattle.std.specs.List.{All};
ghost use Rattle.flat_arrays.specs.Words.{integer_of, natural_of};
ghost use Rattle.mesh_arrays.specs.Points.{CanBePut, all_denominators, all_numerators, numerators_of};

use flat_arrays::{Wide, put_item, put_items};
use ratio128::{Point3, Valued};

// Writes the numerators of a point at place `at`.
fn put_numerators(out: &mut [Wide], at: usize, p: &Valued<Point3>)
    requires fits { at + 3 ≤ length out.old }
    ensures written { map integer_of (take (at + 3) out.new) ≡ map integer_of (take at out.old) ++ numerators_of p.now }
    ensures len { length out.new ≡ length out.old }
{
    let x = Wide::of_integer(p.value.x);
    let y = Wide::of_integer(p.value.y);
    let z = Wide::of_integer(p.value.z);
    put_items(out, at, &[x, y, z]);
}

// Fills the array with the numerators of the points.
fn fill_numerators(points: &[Valued<Point3>], out: &mut [Wide])
    requires fits { length out.old ≡ 3 * length points.now }
    ensures written { map integer_of out.new ≡ all_numerators points.now }
    ensures len { length out.new ≡ length out.old }
{
    for place in 0..points.len() {
        put_numerators(out, 3 * place, &points[place]);
    }
}

// Fills the array with the denominators of the points, each times the common factor.
fn fill_denominators(points: &[Valued<Point3>], common: u128, out: &mut [Wide])
    requires fits { length out.old ≡ length points.now }
    requires put { All (CanBePut common) points.now }
    ensures written { map natural_of out.new ≡ all_denominators common points.now }
    ensures len { length out.new ≡ length out.old }
{
    for place in 0..points.len() {
        put_item(out, place, Wide::of_natural(points[place].den * common));
    }
}

/// Writes the coordinate numerators of points, x, y and z point by point, and the denominators of the points, one each.
///
/// A denominator is that of the point times `common`, from 1 to 2^126 - 1. A numerator is any `i128` but the least. `numerators` has three
/// places for each point, `denominators` has one, and further places keep their contents.
pub fn put_exact_points(
    points: &[Valued<Point3>],
    common: u128,
    numerators: &mut [Wide],
    denominators: &mut [Wide],
)
    requires fits { 3 * length points.now ≤ length numerators.old }
    requires dens_fit { length points.now ≤ length denominators.old }
    requires put { All (CanBePut common) points.now }
    ensures numerators { map integer_of (take (3 * length points.now) numerators.new) ≡ all_numerators points.now }
    ensures denominators { map natural_of (take (length points.now) denominators.new) ≡ all_denominators common points.now }
    ensures rest { drop (3 * length points.now) numerators.new ≡ drop (3 * length points.now) numerators.old }
    ensures dens_rest { drop (length points.now) denominators.new ≡ drop (length points.now) denominators.old }
    ensures len { length numerators.new ≡ length numerators.old }
    ensures dens_len { length denominators.new ≡ length denominators.old }
{
    fill_numerators(points, &mut numerators[..3 * points.len()]);
    fill_denominators(points, common, &mut denominators[..points.len()]);
}
