//! A part of a list of numbers of one width.

ghost use Rattle.std.specs.Prelude.{◌≡◌, ◌<◌, length, get_or, map};
ghost use Rattle.number_width.specs.Numbers.{numbers_in};

use crate::natural::Natural;

/// A borrowed range of a list of numbers of one width.
#[derive(Clone, Copy)]
pub enum NumberSlice<'a> {
    /// Numbers of 64 bits.
    Narrow(&'a [u64]),
    /// Numbers of 128 bits.
    Wide(&'a [u128]),
}

// Returns the number at a place, in 128 bits.
fn number_at<T: Natural>(numbers: &[T], at: usize) -> u128
    requires { at < length numbers.now }
    ensures { result ≡ get_or (map T.value numbers.now) at 0 }
{
    numbers[at].wide()
}

impl NumberSlice<'_> {
    /// Returns how many numbers there are.
    pub fn len(&self) -> usize
        ensures { result ≡ length (numbers_in self.now) }
    {
        match self {
            NumberSlice::Narrow(numbers) => numbers.len(),
            NumberSlice::Wide(numbers) => numbers.len(),
        }
    }

    /// Returns the number at a place, counted from 0, in 128 bits.
    pub fn get(&self, at: usize) -> u128
        requires { at < length (numbers_in self.now) }
        ensures { result ≡ get_or (numbers_in self.now) at 0 }
    {
        match self {
            NumberSlice::Narrow(numbers) => number_at(numbers, at),
            NumberSlice::Wide(numbers) => number_at(numbers, at),
        }
    }
}
