// Marks of numbers: it marks numbers on both sides of 64 and takes the least one.

use crate::expect::expect_same;
use std::process::Abort;
use std::test::Fail;
use stencil_session::Marks;

fn mark_all(rt: &impl Abort, marks: &mut Marks, numbers: &[u32]) {
    for number in numbers {
        assert!(rt; *number < marks.len());
        marks.mark(*number);
        expect_same(rt, &marks.is_marked(*number), &true, number);
    }
}

// A number that is marked twice is taken once.
fn expect_taken(rt: &impl Abort, marks: &mut Marks) {
    mark_all(rt, marks, &[64, 99, 1, 63, 64, 0]);
    expect_same(rt, &marks.count(), &5, &"count");
    for want in [Some(0), Some(1), Some(63), Some(64), Some(99), None] {
        expect_same(rt, &marks.take_least(), &want, &marks.count());
    }
}

#[test]
fn takes_the_least_mark(rt: HostRuntime) -> Result<(), Fail> {
    let mut marks = Marks::new(rt.alloc(), 100)?;
    expect_taken(&rt, &mut marks);
    Ok(())
}
