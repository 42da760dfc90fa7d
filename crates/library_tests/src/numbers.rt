// Whole numbers and fractions.

use crate::expect::expect_same;
use ratio128::{gcd, lcm_within, lowest, times_within};

// Two numbers and their greatest common divisor.
const DIVISORS: &[(u128, u128, u128)] = &[
    (0, 0, 0),
    (0, 7, 7),
    (12, 18, 6),
    (17, 5, 1),
    (1 << 127, 1 << 100, 1 << 100),
];

fn divisors() -> &'static [(u128, u128, u128)] {
    DIVISORS
}

#[test]
fn divides(rt: HostRuntime) {
    for row in divisors() {
        let &(a, b, want) = row;
        expect_same(&rt, &gcd(a, b), &want, row);
    }
}

// A fraction, and the same in lowest terms.
type Reduction = (i128, u128, (i128, u128));

const REDUCTIONS: &[Reduction] = &[
    (-10, 18, (-5, 9)),
    (0, 12, (0, 1)),
    (i128::MAX, 1, (i128::MAX, 1)),
];

fn reductions() -> &'static [Reduction] {
    REDUCTIONS
}

#[test]
fn reduces(rt: HostRuntime) {
    for row in reductions() {
        let &(num, den, want) = row;
        assert!(rt; i128::MIN < num && 0 < den);
        let given = lowest(num, den);
        expect_same(&rt, &(given.num, given.den), &want, row);
    }
}

// Two numbers and a bound; their least common multiple and their product, if they are within it.
type Bounded = (u128, u128, u128, (Option<u128>, Option<u128>));

const TOP: u128 = u128::MAX;

const BOUNDED: &[Bounded] = &[
    (4, 6, 12, (Some(12), None)),
    (4, 6, 11, (None, None)),
    (4, 6, 24, (Some(12), Some(24))),
    (TOP, TOP, TOP, (Some(TOP), None)),
    (TOP, TOP - 1, TOP, (None, None)),
    (1 << 64, 1 << 63, 1 << 127, (Some(1 << 64), Some(1 << 127))),
];

fn bounded() -> &'static [Bounded] {
    BOUNDED
}

#[test]
fn keeps_within_a_bound(rt: HostRuntime) {
    for row in bounded() {
        let &(a, b, bound, want) = row;
        assert!(rt; 0 < a && 0 < b);
        let given = (lcm_within(a, b, bound), times_within(a, b, bound));
        expect_same(&rt, &given, &want, row);
    }
}
