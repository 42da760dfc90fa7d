//! The doubles and floats nearest to the coordinates of points.

ghost use Rattle.std.specs.Prelude.{◌≡◌, ◌+◌, ◌*◌, ◌≤◌, ◌++◌, ℕ, ℤ, List, length, take, drop};
ghost use Rattle.std.specs.List.{All};
ghost use Rattle.nearest_float.specs.Binary.{binary32, binary64};
ghost use Rattle.nearest_float.specs.NearestArrays.{AreNearest};
ghost use Rattle.mesh_arrays.specs.Points.{CanBePut, coordinates, coordinates_of};

use nearest_float::{put_binary32, put_binary64};
use ratio128::{Point3, Valued};

// Writes the doubles nearest to the coordinates of a point at place `at`.
fn put_point64(out: &mut [u64], at: usize, p: &Valued<Point3>, common: u128)
    requires fits { at + 3 ≤ length out.old }
    requires put { CanBePut common p.now }
    ensures nearest { (fractions : List (ℤ × ℕ)) → AreNearest binary64 fractions (take at out.old) → AreNearest binary64 (fractions ++ coordinates_of common p.now) (take (at + 3) out.new) }
    ensures len { length out.new ≡ length out.old }
{
    let den = p.den * common;
    put_binary64(out, at, p.value.x, den);
    put_binary64(out, at + 1, p.value.y, den);
    put_binary64(out, at + 2, p.value.z, den);
}

// Writes the floats nearest to the coordinates of a point at place `at`.
fn put_point32(out: &mut [u32], at: usize, p: &Valued<Point3>, common: u128)
    requires fits { at + 3 ≤ length out.old }
    requires put { CanBePut common p.now }
    ensures nearest { (fractions : List (ℤ × ℕ)) → AreNearest binary32 fractions (take at out.old) → AreNearest binary32 (fractions ++ coordinates_of common p.now) (take (at + 3) out.new) }
    ensures len { length out.new ≡ length out.old }
{
    let den = p.den * common;
    put_binary32(out, at, p.value.x, den);
    put_binary32(out, at + 1, p.value.y, den);
    put_binary32(out, at + 2, p.value.z, den);
}

// Fills the array with the doubles nearest to the coordinates.
fn fill_points64(points: &[Valued<Point3>], common: u128, out: &mut [u64])
    requires fits { length out.old ≡ 3 * length points.now }
    requires put { All (CanBePut common) points.now }
    ensures nearest { AreNearest binary64 (coordinates common points.now) out.new }
    ensures len { length out.new ≡ length out.old }
{
    for place in 0..points.len() {
        put_point64(out, 3 * place, &points[place], common);
    }
}

// Fills the array with the floats nearest to the coordinates.
fn fill_points32(points: &[Valued<Point3>], common: u128, out: &mut [u32])
    requires fits { length out.old ≡ 3 * length points.now }
    requires put { All (CanBePut common) points.now }
    ensures nearest { AreNearest binary32 (coordinates common points.now) out.new }
    ensures len { length out.new ≡ length out.old }
{
    for place in 0..points.len() {
        put_point32(out, 3 * place, &points[place], common);
    }
}

/// Writes the bits of the binary64 numbers nearest to the coordinates of points: x, y and z, point by point.
///
/// A coordinate is a numerator over the denominator of the point times `common`. That product is from 1 to 2^126 - 1, and a numerator is
/// any `i128` but the least. `out` has three places for each point, and further places keep their contents.
pub fn put_points64(points: &[Valued<Point3>], common: u128, out: &mut [u64])
    requires fits { 3 * length points.now ≤ length out.old }
    requires put { All (CanBePut common) points.now }
    ensures nearest { AreNearest binary64 (coordinates common points.now) (take (3 * length points.now) out.new) }
    ensures rest { drop (3 * length points.now) out.new ≡ drop (3 * length points.now) out.old }
    ensures len { length out.new ≡ length out.old }
{
    fill_points64(points, common, &mut out[..3 * points.len()]);
}

/// Writes the bits of the binary32 numbers nearest to the coordinates of points: x, y and z, point by point.
///
/// A coordinate is a numerator over the denominator of the point times `common`. That product is from 1 to 2^126 - 1, and a numerator is
/// any `i128` but the least. `out` has three places for each point, and further places keep their contents.
pub fn put_points32(points: &[Valued<Point3>], common: u128, out: &mut [u32])
    requires fits { 3 * length points.now ≤ length out.old }
    requires put { All (CanBePut common) points.now }
    ensures nearest { AreNearest binary32 (coordinates common points.now) (take (3 * length points.now) out.new) }
    ensures rest { drop (3 * length points.now) out.new ≡ drop (3 * length points.now) out.old }
    ensures len { length out.new ≡ length out.old }
{
    fill_points32(points, common, &mut out[..3 * points.len()]);
}
