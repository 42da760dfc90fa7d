//! The place that a walk has reached.

/// A level and the data at it.
#[derive(Drop)]
pub struct Reached<W, C> {
    /// The level.
    pub level: W,
    /// The data at the level.
    pub carried: C,
}
