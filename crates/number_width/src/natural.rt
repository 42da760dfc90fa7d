//! Natural numbers of a fixed width.

ghost use Rattle.std.specs.Prelude.{◌≡◌, ℕ, ◌+◌, ◌-◌, ◌*◌, ◌^◌, ◌≤◌};

/// A natural number of a fixed width.
pub trait Natural: Copy {
    /// Its value.
    ghost value: { Self → ℕ };

    /// The greatest value of this width.
    ghost most: { ℕ };

    /// Returns the number of this width with the given value.
    fn of(number: u128) -> Self
        requires { number ≤ most }
        ensures { value result ≡ number };

    /// Returns the value, in 128 bits.
    fn wide(self) -> u128
        ensures { result ≡ value self };

    /// Returns the number plus the product of the other two. The sum fits the width.
    fn plus_product(self, factor: Self, other: Self) -> Self
        requires { value self + value factor * value other ≤ most }
        ensures { value result ≡ value self + value factor * value other };
}

impl Natural for u64 {
    ghost value = { λ n. n };

    ghost most = { 2 ^ 64 - 1 };

    fn of(number: u128) -> u64 {
        number as u64
    }

    fn wide(self) -> u128 {
        self as u128
    }

    fn plus_product(self, factor: u64, other: u64) -> u64 {
        self + factor * other
    }
}

impl Natural for u128 {
    ghost value = { λ n. n };

    ghost most = { 2 ^ 128 - 1 };

    fn of(number: u128) -> u128 {
        number
    }

    fn wide(self) -> u128 {
        self
    }

    fn plus_product(self, factor: u128, other: u128) -> u128 {
        self + factor * other
    }
}
