//! Laws of nearest numbers and exact fractions.

ghost use Rattle.std.specs.Prelude.{◌≡◌, ℕ, ◌<◌, ◌^◌, ◌⊎◌, ℤ};
ghost use Rattle.nearest_float.specs.Binary.{binary32, binary64};
ghost use Rattle.nearest_float.specs.Nearest.{IsNearest};
ghost use Rattle.nearest_float.specs.Exact.{IsExact, IsReadBack};

/// A fraction has only one nearest number: two nearest numbers have the same bits.
pub fn one_is_nearest()
    ensures double { (num : ℤ) (den a b : ℕ) → 0 < den → IsNearest binary64 num den a → IsNearest binary64 num den b → a ≡ b }
    ensures float { (num : ℤ) (den a b : ℕ) → 0 < den → IsNearest binary32 num den a → IsNearest binary32 num den b → a ≡ b }
{}

/// The number nearest to the exact fraction of a finite number has the bits of that number, except that -0 becomes 0.
pub fn nearest_reads_back()
    ensures double { (bits : ℕ) (num : ℤ) (den back : ℕ) → bits < 2 ^ 64 → IsExact binary64 bits num den → IsNearest binary64 num den back → IsReadBack binary64 bits back }
    ensures float { (bits : ℕ) (num : ℤ) (den back : ℕ) → bits < 2 ^ 32 → IsExact binary32 bits num den → IsNearest binary32 num den back → IsReadBack binary32 bits back }
{}
