//! Exact evaluation of rows and rounding of fractions, in arrays.

use crate::words::{MINUS_ONE, MINUS_THREE, OLD, ONE, ZERO};
use flat_arrays::Wide;
use row_arrays::{
    ControlArrays, FractionArrays, FractionFault, RowArrays, RowFault, RowRange, apply_rows,
    round_fractions32, round_fractions64,
};

const TWO: Wide = Wide { low: 2, high: 0 };

const THREE: Wide = Wide { low: 3, high: 0 };

const MINUS_EIGHT: Wide = Wide {
    low: u64::MAX - 7,
    high: u64::MAX,
};

const FOUR: Wide = Wide { low: 4, high: 0 };

const FIVE: Wide = Wide { low: 5, high: 0 };

const SEVEN: Wide = Wide { low: 7, high: 0 };

const SIXTEEN: Wide = Wide { low: 16, high: 0 };

// 2^127 without a sign, and -2^127 in two's complement.
const SIGN: Wide = Wide {
    low: 0,
    high: 0x8000_0000_0000_0000,
};

// The sums: 4 + 3 * 16 and -8 + 3 * 5; nothing; -6 + 4 + 16 and 14 - 8 + 5; 2^127 * -1 and 0.
const SUMS: [Wide; 9] = [
    Wide { low: 52, high: 0 },
    SEVEN,
    ZERO,
    ZERO,
    Wide { low: 14, high: 0 },
    Wide { low: 11, high: 0 },
    SIGN,
    ZERO,
    OLD,
];

const STARTS: &[u32] = &[0, 2, 2, 5, 6];

const INDICES: &[u32] = &[0, 1, 2, 0, 1, 3];

const NUMERATORS: &[Wide] = &[ONE, THREE, TWO, ONE, ONE, SIGN];

const NUMBERS: &[Wide] = &[
    FOUR,
    MINUS_EIGHT,
    SIXTEEN,
    FIVE,
    MINUS_THREE,
    SEVEN,
    MINUS_ONE,
    ZERO,
];

// Evaluates four rows over four controls of two components. The second row has no entries.
fn apply(out: &mut [Wide]) -> Result<(), RowFault> {
    let rows = RowArrays {
        starts: STARTS,
        indices: INDICES,
        numerators: NUMERATORS,
    };
    let controls = ControlArrays {
        numbers: NUMBERS,
        components: 2,
    };
    apply_rows(&rows, &controls, &RowRange { from: 0, to: 4 }, out)
}

#[test]
fn rows_are_weighted_sums_of_controls(rt: HostRuntime) {
    let mut out = [OLD; 9];
    assert_eq!(rt; apply(&mut out), Ok(()));
    assert_eq!(rt; out, SUMS);
}

// One entry in the first of some rows, with one number of its control.
struct OneEntry {
    starts: &'static [u32],
    indices: &'static [u32],
    numerators: &'static [Wide],
    numbers: &'static [Wide],
    components: u32,
    range: RowRange,
    places: usize,
    fault: RowFault,
}

// No components; a range that is turned round, and one past the rows; no place; a row that is turned round, past the entries, and of a
// control that does not exist; a product that is too great.
const REFUSED: &[OneEntry] = &[
    OneEntry {
        starts: &[0, 1],
        indices: &[0],
        numerators: &[ONE],
        numbers: &[ONE],
        components: 0,
        range: RowRange { from: 0, to: 1 },
        places: 1,
        fault: RowFault::Range,
    },
    OneEntry {
        starts: &[0, 1],
        indices: &[0],
        numerators: &[ONE],
        numbers: &[ONE],
        components: 1,
        range: RowRange { from: 1, to: 0 },
        places: 1,
        fault: RowFault::Range,
    },
    OneEntry {
        starts: &[0, 1],
        indices: &[0],
        numerators: &[ONE],
        numbers: &[ONE],
        components: 1,
        range: RowRange { from: 0, to: 2 },
        places: 2,
        fault: RowFault::Range,
    },
    OneEntry {
        starts: &[0, 1],
        indices: &[0],
        numerators: &[ONE],
        numbers: &[ONE],
        components: 1,
        range: RowRange { from: 0, to: 1 },
        places: 0,
        fault: RowFault::Short,
    },
    OneEntry {
        starts: &[0, 1, 0],
        indices: &[0],
        numerators: &[ONE],
        numbers: &[ONE],
        components: 1,
        range: RowRange { from: 0, to: 2 },
        places: 2,
        fault: RowFault::Row(1),
    },
    OneEntry {
        starts: &[0, 2],
        indices: &[0],
        numerators: &[ONE],
        numbers: &[ONE],
        components: 1,
        range: RowRange { from: 0, to: 1 },
        places: 1,
        fault: RowFault::Row(0),
    },
    OneEntry {
        starts: &[0, 1],
        indices: &[1],
        numerators: &[ONE],
        numbers: &[ONE],
        components: 1,
        range: RowRange { from: 0, to: 1 },
        places: 1,
        fault: RowFault::Row(0),
    },
    OneEntry {
        starts: &[0, 0, 1],
        indices: &[0],
        numerators: &[SIGN],
        numbers: &[ONE],
        components: 1,
        range: RowRange { from: 0, to: 2 },
        places: 2,
        fault: RowFault::Overflow(1),
    },
];

fn refused() -> &'static [OneEntry] {
    REFUSED
}

fn apply_entry(entry: &OneEntry, out: &mut [Wide]) -> Result<(), RowFault> {
    let rows = RowArrays {
        starts: entry.starts,
        indices: entry.indices,
        numerators: entry.numerators,
    };
    let controls = ControlArrays {
        numbers: entry.numbers,
        components: entry.components,
    };
    apply_rows(&rows, &controls, &entry.range, out)
}

#[test]
fn rows_are_refused_for_their_first_fault(rt: HostRuntime) {
    for entry in refused() {
        let mut out = [OLD; 2];
        assert!(rt; entry.places <= 2);
        let applied = apply_entry(entry, &mut out[..entry.places]);
        assert_eq!(rt; applied, Err(entry.fault));
        assert_eq!(rt; out[1], OLD);
    }
}

const MINUS_FIVE: Wide = Wide {
    low: u64::MAX - 4,
    high: u64::MAX,
};

const FRACTIONS: &[Wide] = &[Wide { low: 9, high: 0 }, MINUS_FIVE, ONE];

const DENOMINATORS: &[Wide] = &[TWO, THREE];

const DOUBLES: [u64; 4] = [
    0x3fe2_0000_0000_0000,
    0xbfd4_0000_0000_0000,
    0x3fa5_5555_5555_5555,
    7,
];

const FLOATS: [u32; 4] = [0x3f10_0000, 0xbea0_0000, 0x3d2a_aaab, 7];

// Two of three fractions share the first denominator.
#[test]
fn fractions_have_the_nearest_doubles_and_floats(rt: HostRuntime) {
    let fractions = FractionArrays {
        numerators: FRACTIONS,
        denominators: DENOMINATORS,
        per: 2,
        scale: Wide { low: 8, high: 0 },
    };
    let mut doubles = [7u64; 4];
    assert_eq!(rt; round_fractions64(&fractions, &mut doubles), Ok(()));
    assert_eq!(rt; doubles, DOUBLES);
    let mut floats = [7u32; 4];
    assert_eq!(rt; round_fractions32(&fractions, &mut floats), Ok(()));
    assert_eq!(rt; floats, FLOATS);
}

// The number of numerators for each denominator, the numerators, the denominators, the scale, and the fault.
type BadFractions = (u32, &'static [Wide], &'static [Wide], Wide, FractionFault);

// No sharing; no place; no denominator; one that is 0; a scale of 0, and one that is too great; a numerator that is too great.
const BAD_FRACTIONS: &[BadFractions] = &[
    (0, &[ONE], &[ONE], ONE, FractionFault::Short),
    (
        1,
        &[ONE, ONE, ONE],
        &[ONE, ONE, ONE],
        ONE,
        FractionFault::Short,
    ),
    (1, &[ONE, ONE], &[ONE], ONE, FractionFault::Short),
    (
        1,
        &[ONE, ONE],
        &[ONE, ZERO],
        ONE,
        FractionFault::Denominator(1),
    ),
    (
        2,
        &[ONE, ONE],
        &[ONE, ZERO],
        ZERO,
        FractionFault::Denominator(0),
    ),
    (2, &[ONE, SIGN], &[ONE], SIGN, FractionFault::Denominator(0)),
    (2, &[ONE, SIGN], &[ONE], ONE, FractionFault::Numerator(1)),
];

fn bad_fractions() -> &'static [BadFractions] {
    BAD_FRACTIONS
}

#[test]
fn fractions_are_refused_for_their_first_fault(rt: HostRuntime) {
    for row in bad_fractions() {
        let &(per, numerators, denominators, scale, fault) = row;
        let arrays = FractionArrays {
            numerators,
            denominators,
            per,
            scale,
        };
        let mut doubles = [7u64; 2];
        assert_eq!(rt; round_fractions64(&arrays, &mut doubles), Err(fault));
        assert_eq!(rt; doubles, [7, 7]);
    }
}
