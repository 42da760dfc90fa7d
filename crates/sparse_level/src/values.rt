//! A sparse level in the form in which it is written, with the values of its points.

use crate::faces::SparseFaces;
use ratio128::Valued;

/// A sparse level in the form in which it is written, with the value of each of its points. The values have the order of the
/// points' numbers.
#[derive(Drop)]
pub struct SparseValues<P> {
    /// The faces.
    pub faces: SparseFaces,
    /// The value of each point.
    pub values: Vec<Valued<P>>,
}
