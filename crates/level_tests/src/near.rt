// Points whose numbers are small, so that they are good values.

ghost use Rattle.std.specs.Prelude.{◌≡◌, true};
ghost use Rattle.std.specs.List.{All};
ghost use Rattle.level_tests.specs.Values.{IsNearPoint};

use primvar_refine::Valued;
use ratio128::Point3;
use std::process::Abort;

// The greatest number of such a point.
pub const MOST: u128 = 8;

// Returns whether a point has the denominator 1 and no number above the greatest.
fn is_near(p: &Valued<Point3>) -> bool
    ensures { result ≡ true → IsNearPoint p.now }
{
    p.den == 1
        && p.value.x.unsigned_abs() <= MOST
        && p.value.y.unsigned_abs() <= MOST
        && p.value.z.unsigned_abs() <= MOST
}

// Asserts that each point has the denominator 1 and numbers up to 8.
pub fn assert_near(rt: &impl Abort, points: &[Valued<Point3>])
    ensures { All IsNearPoint points.now }
{
    let are_near = points.iter().all(|p| is_near(p));
    assert!(rt; are_near);
}
