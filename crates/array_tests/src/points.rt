//! Refined points in a caller's arrays.

use crate::words::{MINUS_THREE, OLD, ONE, ZERO};
use flat_arrays::Wide;
use mesh_arrays::{put_exact_points, put_exact_values, put_points64};
use ratio128::{Point2, Point3, Valued};

// Over 2: one half, -3/2 and 4. Over 6: one sixth, -1/3 and 0.
const POINTS: [Valued<Point3>; 2] = [
    Valued {
        value: Point3 { x: 1, y: -3, z: 8 },
        den: 1,
    },
    Valued {
        value: Point3 { x: 1, y: -2, z: 0 },
        den: 3,
    },
];

const DOUBLES: [u64; 7] = [
    0x3fe0_0000_0000_0000,
    0xbff8_0000_0000_0000,
    0x4010_0000_0000_0000,
    0x3fc5_5555_5555_5555,
    0xbfd5_5555_5555_5555,
    0,
    9,
];

const TWO: Wide = Wide { low: 2, high: 0 };

const SIX: Wide = Wide { low: 6, high: 0 };

const EIGHT: Wide = Wide { low: 8, high: 0 };

const MINUS_TWO: Wide = Wide {
    low: u64::MAX - 1,
    high: u64::MAX,
};

const NUMERATORS: [Wide; 7] = [ONE, MINUS_THREE, EIGHT, ONE, MINUS_TWO, ZERO, OLD];

const VALUES: [Point2; 2] = [Point2 { u: 1, v: -3 }, Point2 { u: 0, v: 8 }];

#[test]
fn points_have_the_nearest_doubles(rt: HostRuntime) {
    let points = POINTS;
    let mut out = [9u64; 7];
    put_points64(&points, 2, &mut out);
    assert_eq!(rt; out, DOUBLES);
}

#[test]
fn points_have_numerators_and_denominators(rt: HostRuntime) {
    let points = POINTS;
    let mut numerators = [OLD; 7];
    let mut denominators = [OLD; 3];
    put_exact_points(&points, 2, &mut numerators, &mut denominators);
    assert_eq!(rt; numerators, NUMERATORS);
    assert_eq!(rt; denominators, [TWO, SIX, OLD]);
}

#[test]
fn texture_values_have_numerators(rt: HostRuntime) {
    let mut numerators = [OLD; 5];
    put_exact_values(&VALUES, &mut numerators);
    assert_eq!(rt; numerators, [ONE, MINUS_THREE, ZERO, EIGHT, OLD]);
}
