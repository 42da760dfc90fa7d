// Lists of zeros with some numbers put in.

use crate::expect::expect_same;
use number_width::{NumberList, Width};
use std::process::Abort;
use std::test::Fail;

// The numbers of the list are these.
fn expect_numbers(rt: &impl Abort, list: &NumberList, numbers: &[u128]) {
    assert!(rt; list.len() == numbers.len());
    let all = list.range(0, list.len());
    for i in 0..numbers.len() {
        expect_same(rt, &all.get(i), &numbers[i], &numbers);
    }
}

#[test]
fn puts_numbers_among_zeros(rt: HostRuntime) -> Result<(), Fail> {
    let mut narrow = NumberList::zeros(rt.alloc(), Width::Narrow, 3)?;
    narrow.set(1, u64::MAX as u128);
    expect_numbers(&rt, &narrow, &[0, u64::MAX as u128, 0]);
    Ok(())
}

#[test]
fn puts_wide_numbers_among_zeros(rt: HostRuntime) -> Result<(), Fail> {
    let mut wide = NumberList::zeros(rt.alloc(), Width::Wide, 3)?;
    wide.set(0, u128::MAX);
    wide.set(2, 7);
    expect_numbers(&rt, &wide, &[u128::MAX, 0, 7]);
    Ok(())
}
