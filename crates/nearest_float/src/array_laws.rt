//! Laws of lists of nearest numbers.

ghost use Rattle.std.specs.Prelude.{ℕ, ℤ, List, ◌++◌};
ghost use Rattle.nearest_float.specs.Binary.{Format};
ghost use Rattle.nearest_float.specs.NearestArrays.{AreNearest};

/// Two lists of nearest numbers, joined, are the nearest numbers to the joined lists of fractions.
pub fn nearest_join()
    ensures { (f : Format) (fractions others : List (ℤ × ℕ)) (bits more : List ℕ) → AreNearest f fractions bits → AreNearest f others more → AreNearest f (fractions ++ others) (bits ++ more) }
{}
