// The numbers nearest to fractions, and the fractions of numbers, by their bits.

use crate::expect::expect_same;
use nearest_float::{
    FloatFault, ListFault, exact_binary32, exact_binary64, exact_binary64s, nearest_binary32,
    nearest_binary64,
};
use ratio128::Frac;
use std::test::Fail;

// A fraction, and the bits of the nearest binary64 and binary32 numbers.
type Nearest = (i128, u128, u64, u32);

// Thirds and tenths; ties about 2^53 and 2^24, and carries; numbers about the least normal float; the widest numerators.
const NEAREST: &[Nearest] = &[
    (0, 1, 0x0000_0000_0000_0000, 0x0000_0000),
    (1, 3, 0x3fd5_5555_5555_5555, 0x3eaa_aaab),
    (-1, 3, 0xbfd5_5555_5555_5555, 0xbeaa_aaab),
    (1, 10, 0x3fb9_9999_9999_999a, 0x3dcc_cccd),
    (5, 1 << 20, 0x3ed4_0000_0000_0000, 0x36a0_0000),
    ((1 << 53) + 1, 1, 0x4340_0000_0000_0000, 0x5a00_0000),
    ((1 << 53) + 3, 1, 0x4340_0000_0000_0002, 0x5a00_0000),
    (-((1 << 53) + 1), 1, 0xc340_0000_0000_0000, 0xda00_0000),
    ((1 << 54) - 1, 1, 0x4350_0000_0000_0000, 0x5a80_0000),
    ((1 << 24) + 1, 1, 0x4170_0000_1000_0000, 0x4b80_0000),
    ((1 << 24) + 3, 1, 0x4170_0000_3000_0000, 0x4b80_0002),
    ((1 << 25) - 1, 1, 0x417f_ffff_f000_0000, 0x4c00_0000),
    (-1, 1 << 126, 0xb810_0000_0000_0000, 0x8080_0000),
    (3, 1 << 126, 0x3828_0000_0000_0000, 0x0140_0000),
    (1, (1 << 127) - 1, 0x3800_0000_0000_0000, 0x0040_0000),
    (
        -1,
        (1 << 126) + (1 << 125),
        0xb805_5555_5555_5555,
        0x8055_5555,
    ),
    (i128::MAX, 1, 0x47e0_0000_0000_0000, 0x7f00_0000),
    (-i128::MAX, 1, 0xc7e0_0000_0000_0000, 0xff00_0000),
    (
        i128::MAX - (1 << 102),
        1,
        0x47df_ffff_f000_0000,
        0x7eff_ffff,
    ),
    (
        i128::MAX - (1 << 102) + 1,
        1,
        0x47df_ffff_f000_0000,
        0x7f00_0000,
    ),
];

fn nearest() -> &'static [Nearest] {
    NEAREST
}

#[test]
fn finds_the_nearest(rt: HostRuntime) {
    for row in nearest() {
        let &(num, den, double, float) = row;
        assert!(rt; 0 < den && den < 1 << 127 && num.unsigned_abs() < 1 << 127);
        let given = (nearest_binary64(num, den), nearest_binary32(num, den));
        expect_same(&rt, &given, &(double, float), row);
    }
}

// The fraction of these terms.
macro_rules! fraction {
    ($num:expr, $den:expr) => {
        Ok(Frac { num: $num, den: $den })
    };
}

const WIDE: Result<Frac, FloatFault> = Err(FloatFault::TooWide);

const NO_NUMBER: Result<Frac, FloatFault> = Err(FloatFault::NotFinite);

// The bits of a binary64 number, and its fraction.
type Exact = (u64, Result<Frac, FloatFault>);

const DOUBLES: &[Exact] = &[
    (0, fraction!(0, 1)),
    (0x8000_0000_0000_0000, fraction!(0, 1)),
    (0x3ff8_0000_0000_0000, fraction!(3, 2)),
    (0xbfb9_9999_9999_999a, fraction!(-3602879701896397, 1 << 55)),
    (0x3810_0000_0000_0000, fraction!(1, 1 << 126)),
    (0x3800_0000_0000_0000, WIDE),
    (1, WIDE),
    (0x47df_ffff_ffff_ffff, fraction!(((1 << 53) - 1) << 74, 1)),
    (0x47e0_0000_0000_0000, WIDE),
    (0x7fef_ffff_ffff_ffff, WIDE),
    (0x7ff0_0000_0000_0000, NO_NUMBER),
    (0xfff8_0000_0000_0000, NO_NUMBER),
];

fn doubles() -> &'static [Exact] {
    DOUBLES
}

#[test]
fn reads_doubles(rt: HostRuntime) {
    for row in doubles() {
        let &(bits, want) = row;
        expect_same(&rt, &exact_binary64(bits), &want, row);
    }
}

// The bits of a binary32 number, and its fraction.
type ExactFloat = (u32, Result<Frac, FloatFault>);

const FLOATS: &[ExactFloat] = &[
    (0x3dcc_cccd, fraction!(13421773, 1 << 27)),
    (0x0080_0000, fraction!(1, 1 << 126)),
    (0x0040_0000, WIDE),
    (0xff00_0000, WIDE),
    (0x7eff_ffff, fraction!(((1 << 24) - 1) << 103, 1)),
    (0xff80_0000, NO_NUMBER),
];

fn floats() -> &'static [ExactFloat] {
    FLOATS
}

#[test]
fn reads_floats(rt: HostRuntime) {
    for row in floats() {
        let &(bits, want) = row;
        expect_same(&rt, &exact_binary32(bits), &want, row);
    }
}

#[test]
fn reads_lists(rt: HostRuntime) -> Result<(), Fail> {
    let infinite = exact_binary64s(
        rt.alloc(),
        &[0, 0x7ff0_0000_0000_0000, 0x7ff8_0000_0000_0000],
    )
    .err();
    let refused = Some(ListFault::At(1, FloatFault::NotFinite));
    expect_same(&rt, &infinite, &refused, &"an infinity at place 1");
    let found = exact_binary64s(rt.alloc(), &[0x3fe0_0000_0000_0000, 0xbff0_0000_0000_0000])?;
    let want = [Frac { num: 1, den: 2 }, Frac { num: -1, den: 1 }];
    expect_same(&rt, &found.as_slice(), &want.as_slice(), &"two numbers");
    Ok(())
}
