//! The numbers of the points of a part of the next level.

ghost use Rattle.std.specs.Prelude.{◌≡◌, ℕ, Bool, true};

/// The points of a part of the next level. The calls take a point's number in the whole next level: vertices come first
/// there, then faces, then edges.
pub trait ChildPoints {
    /// The part has the point with this number.
    ghost has: { Self → ℕ → Bool };

    /// The number of the point in the part.
    ghost number: { Self → ℕ → ℕ };

    /// Returns whether the part has point `n` of the whole next level.
    fn has_point(&self, n: u32) -> bool
        ensures { result ≡ has self.now n };

    /// Returns the number in the part of point `n` of the whole next level. The part must have the point.
    fn number_of(&self, n: u32) -> u32
        requires { has self.now n ≡ true }
        ensures { result ≡ number self.now n };
}

/// All points of the next level, each with its own number. It takes no memory.
#[derive(Clone, Copy)]
pub struct AllPoints;

impl ChildPoints for AllPoints {
    ghost has = { λ points n. true };

    ghost number = { λ points n. n };

    fn has_point(&self, _n: u32) -> bool {
        true
    }

    fn number_of(&self, n: u32) -> u32 {
        n
    }
}
