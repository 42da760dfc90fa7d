//! Doubles and floats as numerators over one denominator.

use flat_arrays::Wide;
use nearest_float::FloatFault;
use row_arrays::{NumberFault, round_binary32s, round_binary64s, scale_binary32s, scale_binary64s};
use std::test::Fail;

// The contents of a place before a call.
const NINE: Wide = Wide { low: 9, high: 0 };

// The integers of an array.
fn integers(out: &[Wide; 4]) -> [i128; 4] {
    [
        out[0].integer(),
        out[1].integer(),
        out[2].integer(),
        out[3].integer(),
    ]
}

// The bits of doubles, and the array with their numerators over their scale.
type Scaled = (&'static [u64], u128, [i128; 4]);

// One half, -13/4 and 3; a tenth, -0 and 10^20; the finest scale.
const SCALED: &[Scaled] = &[
    (
        &[
            0x3fe0_0000_0000_0000,
            0xc00a_0000_0000_0000,
            0x4008_0000_0000_0000,
        ],
        4,
        [2, -13, 12, 9],
    ),
    (
        &[
            0x3fb9_9999_9999_999a,
            0x8000_0000_0000_0000,
            0x4415_af1d_78b5_8c40,
        ],
        1 << 55,
        [
            3602879701896397,
            0,
            3602879701896396800000000000000000000,
            9,
        ],
    ),
    (
        &[0x3810_0000_0000_0000, 0x3ff0_0000_0000_0000],
        1 << 126,
        [1, 1 << 126, 9, 9],
    ),
];

fn scaled() -> &'static [Scaled] {
    SCALED
}

#[test]
fn doubles_have_numerators_over_one_denominator(rt: HostRuntime) {
    for row in scaled() {
        let &(bits, scale, numerators) = row;
        let mut out = [NINE; 4];
        assert!(rt; bits.len() < 4);
        assert_eq!(rt; scale_binary64s(bits, &mut out), Ok(scale));
        assert_eq!(rt; integers(&out), numerators);
    }
}

// The bits of doubles that are refused, and the place and the kind of the fault.
type Refused = (&'static [u64], usize, FloatFault);

// The least numerator that is too large; no number behind a number that makes others too large; 1 and 10^-300.
const REFUSED: &[Refused] = &[
    (&[0x47e0_0000_0000_0000], 0, FloatFault::TooWide),
    (
        &[
            0x47d0_0000_0000_0000,
            0x3fe0_0000_0000_0000,
            0x7ff8_0000_0000_0000,
        ],
        2,
        FloatFault::NotFinite,
    ),
    (
        &[0x3ff0_0000_0000_0000, 0x01a5_6e1f_c2f8_f359],
        1,
        FloatFault::TooWide,
    ),
];

fn refused() -> &'static [Refused] {
    REFUSED
}

#[test]
fn doubles_are_refused_for_their_first_fault(rt: HostRuntime) {
    for row in refused() {
        let &(bits, place, fault) = row;
        let mut out = [NINE; 4];
        assert!(rt; bits.len() < 4);
        let bad = NumberFault { place, fault };
        assert_eq!(rt; scale_binary64s(bits, &mut out), Err(bad));
        assert_eq!(rt; out[3], NINE);
    }
}

// The bits of doubles, the bits of the grid, the number of changed doubles, and the array with their numerators.
type Rounded = (&'static [u64], u32, u64, [i128; 4]);

// A tenth, -3/10 and 1 over 2^10; ties; 10^-300, the least number and -0; the greatest numerator.
const ROUNDED: &[Rounded] = &[
    (
        &[
            0x3fb9_9999_9999_999a,
            0xbfd3_3333_3333_3333,
            0x3ff0_0000_0000_0000,
        ],
        10,
        2,
        [102, -307, 1024, 9],
    ),
    (
        &[
            0x3ff8_0000_0000_0000,
            0x4004_0000_0000_0000,
            0xc00c_0000_0000_0000,
        ],
        0,
        3,
        [2, 2, -4, 9],
    ),
    (
        &[
            0x01a5_6e1f_c2f8_f359,
            0x0000_0000_0000_0001,
            0x8000_0000_0000_0000,
        ],
        126,
        2,
        [0, 0, 0, 9],
    ),
    (&[0x4630_0000_0000_0000], 26, 0, [1 << 126, 9, 9, 9]),
];

fn rounded() -> &'static [Rounded] {
    ROUNDED
}

#[test]
fn doubles_are_rounded_to_a_grid(rt: HostRuntime) {
    for row in rounded() {
        let &(bits, grid_bits, changed, numerators) = row;
        let mut out = [NINE; 4];
        assert!(rt; bits.len() < 4 && grid_bits <= 126);
        assert_eq!(rt; round_binary64s(bits, grid_bits, &mut out), Ok(changed));
        assert_eq!(rt; integers(&out), numerators);
    }
    let wide = NumberFault {
        place: 0,
        fault: FloatFault::TooWide,
    };
    let mut out = [NINE; 1];
    assert_eq!(rt;
        round_binary64s(&[0xc630_0000_0000_0000], 27, &mut out),
        Err(wide)
    );
}

// One half, -13/4 and 3 without a change, then a tenth, -3/10 and 1 over 2^10.
#[test]
fn floats_have_numerators_as_doubles_have(rt: HostRuntime) {
    let mut out = [NINE; 4];
    let scale = scale_binary32s(&[0x3f00_0000, 0xc050_0000, 0x4040_0000], &mut out);
    assert_eq!(rt; scale, Ok(4));
    assert_eq!(rt; integers(&out), [2, -13, 12, 9]);
    let changed = round_binary32s(&[0x3dcc_cccd, 0xbe99_999a, 0x3f80_0000], 10, &mut out);
    assert_eq!(rt; changed, Ok(2));
    assert_eq!(rt; integers(&out), [102, -307, 1024, 9]);
}

#[test]
fn faults_name_the_number(rt: HostRuntime) -> Result<(), Fail> {
    let none = NumberFault {
        place: 2,
        fault: FloatFault::NotFinite,
    };
    let wide = NumberFault {
        place: 0,
        fault: FloatFault::TooWide,
    };
    let text = format!(in rt.alloc(); "{none}; {wide}")?;
    assert_eq!(rt;
        text.as_str(),
        "number 2: not a finite number; number 0: the fraction is too wide"
    );
    Ok(())
}
