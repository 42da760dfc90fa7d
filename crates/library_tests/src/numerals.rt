// Numerals and indices of OBJ text.

use crate::expect::expect_same;
use obj_text::NumeralFault::{BadNumeral, NumberRange};
use obj_text::{Numeral, NumeralFault, read_index, read_numeral};
use std::test::Fail;

// The greatest numerator.
const MOST: i128 = 9_999_999_999_999_999_999_999_999_999_999_999_999;

// Ten to the 37, the greatest denominator of a decimal.
const TENS: u128 = 10_000_000_000_000_000_000_000_000_000_000_000_000;

// Words, each with its numerator, its denominator and its decimals, or with its fault.
const NUMERALS: &[(&'static str, Read)] = &[
    ("-0", Ok((0, 1, 0))),
    ("0.000", Ok((0, 1, 0))),
    ("-.0E-999999999999999999999", Ok((0, 1, 0))),
    ("+1", Ok((1, 1, 0))),
    ("007", Ok((7, 1, 0))),
    ("1200", Ok((1200, 1, 0))),
    ("-1.", Ok((-1, 1, 0))),
    ("-.5", Ok((-1, 2, 1))),
    ("+0.50", Ok((1, 2, 1))),
    ("10.010", Ok((1001, 100, 2))),
    ("0.36", Ok((9, 25, 2))),
    ("0.00000005", Ok((1, 20_000_000, 8))),
    ("1.e5", Ok((100_000, 1, 0))),
    ("1E+2", Ok((100, 1, 0))),
    ("2.5e+01", Ok((25, 1, 0))),
    ("-25e-1", Ok((-5, 2, 1))),
    ("1200e-3", Ok((6, 5, 1))),
    ("0.00012e3", Ok((3, 25, 2))),
    ("9999999999999999999999999999999999999", Ok((MOST, 1, 0))),
    ("-9999999999999999999999999999999999999", Ok((-MOST, 1, 0))),
    (
        "99999999999999999999999999999999999990e-1",
        Ok((MOST, 1, 0)),
    ),
    ("1e36", Ok((MOST / 10 + 1, 1, 0))),
    ("-1e-37", Ok((-1, TENS, 37))),
    ("10e-38", Ok((1, TENS, 37))),
    (
        ".9999999999999999999999999999999999999",
        Ok((MOST, TENS, 37)),
    ),
    (
        ".9999999999999999999999999999999999995",
        Ok((MOST / 5, TENS / 5, 37)),
    ),
    (
        "0.0000000000000000000000000000000000001000",
        Ok((1, TENS, 37)),
    ),
    (
        "1e-0000000000000000000000000000000000000000000000001",
        Ok((1, 10, 1)),
    ),
    (
        "00000000000000000000000000000000000000000000000001.5",
        Ok((3, 2, 1)),
    ),
    (
        "1.00000000000000000000000000000000000000000000000000",
        Ok((1, 1, 0)),
    ),
    // Fractions.
    ("1/2", Ok((1, 2, 0))),
    ("-1/3", Ok((-1, 3, 0))),
    ("+2/4", Ok((1, 2, 0))),
    ("-6/9", Ok((-2, 3, 0))),
    ("10/5", Ok((2, 1, 0))),
    ("0/5", Ok((0, 1, 0))),
    ("-0/7", Ok((0, 1, 0))),
    ("007/0021", Ok((1, 3, 0))),
    ("9999999999999999999999999999999999999/1", Ok((MOST, 1, 0))),
    (
        "-1/9999999999999999999999999999999999999",
        Ok((-1, MOST as u128, 0)),
    ),
    (
        "0009999999999999999999999999999999999999/0009999999999999999999999999999999999998",
        Ok((MOST, MOST as u128 - 1, 0)),
    ),
    // Words that are not numerals, and numerals that are out of range.
    ("", Err(BadNumeral)),
    ("-", Err(BadNumeral)),
    (".", Err(BadNumeral)),
    ("+.", Err(BadNumeral)),
    ("+-1", Err(BadNumeral)),
    ("1+1", Err(BadNumeral)),
    ("1.2.3", Err(BadNumeral)),
    ("1..2", Err(BadNumeral)),
    ("e5", Err(BadNumeral)),
    (".e5", Err(BadNumeral)),
    ("1E+", Err(BadNumeral)),
    ("1e--1", Err(BadNumeral)),
    ("1e1.", Err(BadNumeral)),
    ("1ee1", Err(BadNumeral)),
    ("nan", Err(BadNumeral)),
    ("0x10", Err(BadNumeral)),
    ("1_0", Err(BadNumeral)),
    ("/", Err(BadNumeral)),
    ("1/", Err(BadNumeral)),
    ("/2", Err(BadNumeral)),
    ("1/0", Err(BadNumeral)),
    ("0/000", Err(BadNumeral)),
    ("1/-2", Err(BadNumeral)),
    ("1/+2", Err(BadNumeral)),
    ("1/2/3", Err(BadNumeral)),
    ("1.5/2", Err(BadNumeral)),
    ("1/2e1", Err(BadNumeral)),
    ("1e1/2", Err(BadNumeral)),
    ("99999999999999999999999999999999999999/0", Err(BadNumeral)),
    (" 1", Err(BadNumeral)),
    ("१", Err(BadNumeral)),
    ("10000000000000000000000000000000000000", Err(NumberRange)),
    ("99999999999999999999999999999999999999", Err(NumberRange)),
    ("1.0000000000000000000000000000000000001", Err(NumberRange)),
    (
        "99999999999999999999999999999999999999e-9",
        Err(NumberRange),
    ),
    ("1e37", Err(NumberRange)),
    ("-1e-38", Err(NumberRange)),
    ("1e-100", Err(NumberRange)),
    (
        "1e99999999999999999999999999999999999999999999",
        Err(NumberRange),
    ),
    (
        "1e-99999999999999999999999999999999999999999999",
        Err(NumberRange),
    ),
    ("1e18446744073709551616", Err(NumberRange)),
    (
        "-1e-340282366920938463463374607431768211456",
        Err(NumberRange),
    ),
    ("10000000000000000000000000000000000000/1", Err(NumberRange)),
    (
        "20000000000000000000000000000000000000/20000000000000000000000000000000000000",
        Err(NumberRange),
    ),
    ("0/10000000000000000000000000000000000000", Err(NumberRange)),
    (
        "-1/340282366920938463463374607431768211457",
        Err(NumberRange),
    ),
];

// The terms and the decimals of a numeral, or its fault.
type Read = Result<(i128, u128, u32), NumeralFault>;

fn numerals() -> &'static [(&'static str, Read)] {
    NUMERALS
}

fn read(word: &[u8]) -> Read {
    match read_numeral(word) {
        Ok(Numeral { num, den, decimals }) => Ok((num, den, decimals)),
        Err(fault) => Err(fault),
    }
}

#[test]
fn reads_numerals(rt: HostRuntime) {
    for row in numerals() {
        let &(word, want) = row;
        expect_same(&rt, &read(word.as_bytes()), &want, row);
    }
}

// The text before and after a thousand zeros, and the result for the whole.
const LONG_NUMERALS: &[(&'static str, &'static str, Read)] = &[
    ("0.", "1e1001", Ok((1, 1, 0))),
    ("0.", "1e1000", Ok((1, 10, 1))),
    ("0.", "1e1040", Err(NumberRange)),
    ("-1", "e-1000", Ok((-1, 1, 0))),
    ("-1", "e-1001", Ok((-1, 10, 1))),
    ("-1", "e+1001", Err(NumberRange)),
];

fn long_numerals() -> &'static [(&'static str, &'static str, Read)] {
    LONG_NUMERALS
}

// Numerals with a thousand zeros in the middle.
#[test]
fn reads_a_thousand_zeros(rt: HostRuntime) -> Result<(), Fail> {
    for row in long_numerals() {
        let &(before, after, want) = row;
        let word = format!(in rt.alloc(); "{before}{:01000}{after}", 0)?;
        expect_same(&rt, &read(word.as_bytes()), &want, row);
    }
    Ok(())
}

// Words, each with its index.
const INDICES: &[(&'static str, Option<i64>)] = &[
    ("1", Some(1)),
    ("-0", Some(0)),
    ("-1", Some(-1)),
    ("-0012", Some(-12)),
    ("9223372036854775806", Some(i64::MAX - 1)),
    ("9223372036854775808", Some(i64::MAX)),
    ("18446744073709551617", Some(i64::MAX)),
    ("-9223372036854775807", Some(i64::MIN + 1)),
    ("-9223372036854775809", Some(i64::MIN)),
    ("00000000000000000000000000000000000000000000007", Some(7)),
    ("", None),
    ("-", None),
    ("+1", None),
    ("--1", None),
    ("1.", None),
    ("1e1", None),
    ("x", None),
    (" 1", None),
];

fn indices() -> &'static [(&'static str, Option<i64>)] {
    INDICES
}

#[test]
fn reads_indices(rt: HostRuntime) {
    for row in indices() {
        let &(word, want) = row;
        expect_same(&rt, &read_index(word.as_bytes()), &want, row);
    }
}
