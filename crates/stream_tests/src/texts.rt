// Texts of numbers, fractions and decimals, on their way to a sink through a buffer.

ghost use Rattle.std.specs.Prelude.{◌≡◌, ◌<◌, ◌≤◌, ◌^◌, ◌++◌, unsigned_abs, codes};
ghost use Rattle.far_io.specs.Writes.{Writes};
ghost use Rattle.subdiv_model.specs.NumberText.{fraction_text};

use crate::expect::expect_same;
use crate::failing::failing_sink;
use far_io::{Sink, SureSink, WriteFailed};
use obj_out::Out;
use ratio128::Frac;
use std::process::Abort;
use std::test::Fail;

// Writes a word and a fraction. The contract follows from the clauses of the calls only.
fn put_word_and_fraction<K: Sink>(sink: &mut K, f: &Frac) -> Result<(), WriteFailed>
    requires positive { 0 < f.now.den }
    requires kept { unsigned_abs f.now.num < 2 ^ 127 }
    ensures { Writes K.Sink sink.old sink.new (codes "v " ++ fraction_text f.now.num f.now.den) result }
{
    let mut out = Out::new(sink);
    out.put_bytes(b"v ")?;
    out.put_frac(f)?;
    out.end()
}

// A numerator, a denominator, the number of digits, and the text.
type Decimal = (i128, u128, u32, &'static str);

const DECIMALS: &[Decimal] = &[
    (1, 2, 0, "0"),
    (3, 2, 0, "2"),
    (-1, 2, 0, "0"),
    (5, 2, 0, "2"),
    (-7, 1, 0, "-7"),
    (-7, 1, 1, "-7.0"),
    (0, 5, 3, "0.000"),
    (-1, 8, 2, "-0.12"),
    (3, 8, 2, "0.38"),
    (-1, 1000, 2, "0.00"),
    (9995, 1000, 2, "10.00"),
    (2005, 1000, 3, "2.005"),
    (1, 1000000000000000000, 18, "0.000000000000000001"),
    (-1, 2000000000000000000, 18, "0.000000000000000000"),
    (-3, 2000000000000000000, 18, "-0.000000000000000002"),
    (
        -170141183460469231731687303715884105727,
        1,
        0,
        "-170141183460469231731687303715884105727",
    ),
    (
        -170141183460469231731687303715884105727,
        3,
        18,
        "-56713727820156410577229101238628035242.333333333333333333",
    ),
    (
        -100000000000000000000000000000000000001,
        85070591730234615865843651857942052863,
        18,
        "-1.175494350822287508",
    ),
    (
        85070591730234615865843651857942052862,
        85070591730234615865843651857942052863,
        18,
        "1.000000000000000000",
    ),
    (
        42535295865117307932921825928971026431,
        85070591730234615865843651857942052863,
        0,
        "0",
    ),
    (
        42535295865117307932921825928971026432,
        85070591730234615865843651857942052863,
        0,
        "1",
    ),
];

fn decimals() -> &'static [Decimal] {
    DECIMALS
}

fn put_decimal(sink: &mut SureSink, f: &Frac, digits: u32) -> Result<(), WriteFailed>
    requires positive { 0 < f.now.den }
    requires short { f.now.den < 2 ^ 126 }
    requires kept { unsigned_abs f.now.num < 2 ^ 127 }
    requires digits { digits ≤ 18 }
{
    let mut out = Out::new(sink);
    out.put_decimal(f, digits)?;
    out.end()
}

fn expect_decimal(rt: &(impl Abort + AllocGlobal), row: &Decimal) -> Result<(), Fail> {
    let &(num, den, digits, text) = row;
    assert!(rt; num.unsigned_abs() < 1 << 127);
    assert!(rt; 0 < den && den < 1 << 126);
    assert!(rt; digits <= 18);
    let mut sink = SureSink::with_room(rt.alloc(), 100)?;
    let put = put_decimal(&mut sink, &Frac { num, den }, digits);
    expect_same(rt, &(put, sink.bytes()), &(Ok(()), text.as_bytes()), row);
    Ok(())
}

#[test]
fn rounds_half_to_even(rt: HostRuntime) -> Result<(), Fail> {
    for row in decimals() {
        expect_decimal(&rt, row)?;
    }
    Ok(())
}

// A numerator, a denominator, and the word with the fraction in lowest terms.
type Fraction = (i128, u128, &'static str);

const FRACTIONS: &[Fraction] = &[
    (0, 7, "v 0"),
    (-10, 18, "v -5/9"),
    (-4, 2, "v -2"),
    (
        1,
        340282366920938463463374607431768211455,
        "v 1/340282366920938463463374607431768211455",
    ),
    (
        -170141183460469231731687303715884105727,
        340282366920938463463374607431768211454,
        "v -1/2",
    ),
];

fn fractions() -> &'static [Fraction] {
    FRACTIONS
}

fn expect_fraction(rt: &(impl Abort + AllocGlobal), row: &Fraction) -> Result<(), Fail> {
    let &(num, den, text) = row;
    assert!(rt; num.unsigned_abs() < 1 << 127);
    assert!(rt; 0 < den);
    let mut sink = SureSink::with_room(rt.alloc(), 100)?;
    let put = put_word_and_fraction(&mut sink, &Frac { num, den });
    expect_same(rt, &(put, sink.bytes()), &(Ok(()), text.as_bytes()), row);
    Ok(())
}

#[test]
fn puts_a_word_and_a_fraction(rt: HostRuntime) -> Result<(), Fail> {
    for row in fractions() {
        expect_fraction(&rt, row)?;
    }
    Ok(())
}

// Puts a text in four calls and ends it, whatever fails, and returns which calls succeeded.
fn successes<K: Sink>(sink: &mut K) -> [bool; 5] {
    let letters = [b'a'; 5000];
    let mut out = Out::new(sink);
    [
        out.put_bytes(&letters[..3000]).is_ok(),
        out.put_bytes(&letters[..3000]).is_ok(),
        out.put_bytes(&letters).is_ok(),
        out.put_number(u64::MAX).is_ok(),
        out.end().is_ok(),
    ]
}

// The capacity of the sink, its failing call (9 for none), which calls of the `Out` succeed, and the number of bytes in the sink then.
type Stop = (usize, u32, [bool; 5], usize);

const STOPS: &[Stop] = &[
    (12000, 0, [true, false, false, false, false], 0),
    (12000, 1, [true, true, false, false, false], 3000),
    (12000, 2, [true, true, false, false, false], 6000),
    (12000, 3, [true, true, true, true, false], 11000),
    (12000, 4, [true, true, true, true, false], 11020),
    (12000, 5, [true, true, true, true, true], 11020),
    (7000, 9, [true, true, false, false, false], 7000),
];

fn stops() -> &'static [Stop] {
    STOPS
}

fn expect_stop(rt: &(impl Abort + AllocGlobal), row: &Stop) -> Result<(), Fail> {
    let &(room, call, calls, held) = row;
    let mut sink = failing_sink(rt.alloc(), room, call)?;
    let given = (successes(&mut sink), sink.bytes().len());
    expect_same(rt, &given, &(calls, held), row);
    Ok(())
}

#[test]
fn stops_at_a_failed_write(rt: HostRuntime) -> Result<(), Fail> {
    for row in stops() {
        expect_stop(&rt, row)?;
    }
    Ok(())
}
