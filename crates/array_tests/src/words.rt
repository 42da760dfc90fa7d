//! Numbers in two words, and items written into arrays.

use flat_arrays::{Wide, put_item, put_items};

// The contents of a number's place before a call.
pub(crate) const OLD: Wide = Wide { low: 7, high: 7 };

pub(crate) const ZERO: Wide = Wide { low: 0, high: 0 };

pub(crate) const ONE: Wide = Wide { low: 1, high: 0 };

pub(crate) const MINUS_ONE: Wide = Wide {
    low: u64::MAX,
    high: u64::MAX,
};

pub(crate) const MINUS_THREE: Wide = Wide {
    low: u64::MAX - 2,
    high: u64::MAX,
};

#[test]
fn numbers_come_back_from_their_words(rt: HostRuntime) {
    assert_eq!(rt; Wide::of_integer(-1).high, u64::MAX);
    assert_eq!(rt; Wide::of_integer(-3).integer(), -3);
    assert_eq!(rt; Wide::of_natural(u128::MAX - 2).natural(), u128::MAX - 2);
}

#[test]
fn items_stand_behind_those_that_are_there(rt: HostRuntime) {
    let mut out = [1u32, 2, 3, 4];
    put_items(&mut out, 1, &[7, 8]);
    put_item(&mut out, 3, 9);
    assert_eq!(rt; out, [1, 7, 8, 9]);
}
