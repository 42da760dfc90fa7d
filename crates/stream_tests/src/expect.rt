// The comparison of each row of a table.

use std::fmt;
use std::process::Abort;

// The value is the expected one, at this row.
pub fn expect_same<T: PartialEq + fmt::Debug>(
    rt: &impl Abort,
    given: &T,
    want: &T,
    row: &impl fmt::Debug,
) {
    assert_eq!(rt; given, want, "at {row:?}");
}
