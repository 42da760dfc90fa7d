//! The numerators of texture values.

ghost use Rattle.std.specs.Prelude.{◌≡◌, ◌+◌, ◌*◌, ◌≤◌, ◌++◌, length, map, take, drop};
ghost use Rattle.flat_arrays.specs.Words.{integer_of};
ghost use Rattle.mesh_arrays.specs.Values.{all_value_numerators, value_numerators_of};

use flat_arrays::{Wide, put_items};
use ratio128::Point2;

// Writes the numerators of a texture value at place `at`.
fn put_value(out: &mut [Wide], at: usize, p: &Point2)
    requires fits { at + 2 ≤ length out.old }
    ensures written { map integer_of (take (at + 2) out.new) ≡ map integer_of (take at out.old) ++ value_numerators_of p.now }
    ensures len { length out.new ≡ length out.old }
{
    let u = Wide::of_integer(p.u);
    let v = Wide::of_integer(p.v);
    put_items(out, at, &[u, v]);
}

// Fills the array with the numerators of texture values.
fn fill_values(values: &[Point2], out: &mut [Wide])
    requires fits { length out.old ≡ 2 * length values.now }
    ensures written { map integer_of out.new ≡ all_value_numerators values.now }
    ensures len { length out.new ≡ length out.old }
{
    for place in 0..values.len() {
        put_value(out, 2 * place, &values[place]);
    }
}

/// Writes the numerators of texture values, u and v value by value. `out` has two places for each value, and further places keep their
/// contents.
pub fn put_exact_values(values: &[Point2], out: &mut [Wide])
    requires fits { 2 * length values.now ≤ length out.old }
    ensures written { map integer_of (take (2 * length values.now) out.new) ≡ all_value_numerators values.now }
    ensures rest { drop (2 * length values.now) out.new ≡ drop (2 * length values.now) out.old }
    ensures len { length out.new ≡ length out.old }
{
    fill_values(values, &mut out[..2 * values.len()]);
}
