/// A control point and its numerator.
#[derive(Clone, Copy, Debug, PartialEq, Eq)]
pub struct Entry {
    /// The control point, counted from 0.
    pub index: u32,
    /// The numerator, over the row's denominator.
    pub numerator: u128,
}
