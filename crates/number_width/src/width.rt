//! The width of numbers.

ghost use Rattle.std.specs.Prelude.{◌≡◌};
ghost use Rattle.number_width.specs.Numbers.{width_for};

/// How many bits each number of a list has.
#[derive(Clone, Copy, Debug, PartialEq, Eq)]
pub enum Width {
    /// 64 bits: numbers up to 2^64 - 1.
    Narrow,
    /// 128 bits: numbers up to 2^128 - 1.
    Wide,
}

/// Returns the narrowest width that holds the number.
pub fn width_of(number: u128) -> Width
    ensures { result ≡ width_for number }
{
    if number <= u64::MAX as u128 {
        Width::Narrow
    } else {
        Width::Wide
    }
}
