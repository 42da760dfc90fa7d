//! 128-bit numbers as two words.

ghost use Rattle.std.specs.Prelude.{◌≡◌, ◌+◌, ◌-◌, ◌*◌, ◌^◌, pos, negsuc, ◌≤ℤ◌, ◌<ℤ◌};
ghost use Rattle.flat_arrays.specs.Words.{natural_of, integer_of, integer_from};

const WORD: u128 = 0x1_0000_0000_0000_0000;

const SIGN: u128 = 0x8000_0000_0000_0000_0000_0000_0000_0000;

/// A 128-bit number as two words of 64 bits: a natural number, or an integer in two's complement.
#[repr(C)]
#[derive(Clone, Copy, Debug, PartialEq, Eq)]
pub struct Wide {
    /// The lower 64 bits.
    pub low: u64,
    /// The upper 64 bits.
    pub high: u64,
}

// Returns the integer whose two's complement is `n`.
fn signed(n: u128) -> i128
    ensures { result ≡ integer_from n }
{
    if n < SIGN {
        n as i128
    } else {
        -1 - ((u128::MAX - n) as i128)
    }
}

// Returns the two's complement of an integer.
fn complement(x: i128) -> u128
    ensures { integer_from result ≡ x }
{
    if x >= 0 {
        x as u128
    } else {
        u128::MAX - ((-1 - x) as u128)
    }
}

impl Wide {
    /// Returns the words of a natural number.
    pub fn of_natural(n: u128) -> Wide
        ensures { natural_of result ≡ n }
    {
        Wide {
            low: (n % WORD) as u64,
            high: (n / WORD) as u64,
        }
    }

    /// Returns the words of an integer, in two's complement.
    pub fn of_integer(x: i128) -> Wide
        ensures { integer_of result ≡ x }
    {
        Wide::of_natural(complement(x))
    }

    /// Returns the natural number of the words.
    pub fn natural(&self) -> u128
        ensures { result ≡ natural_of self.now }
    {
        (self.high as u128) * WORD + (self.low as u128)
    }

    /// Returns the integer of the words, read as two's complement.
    pub fn integer(&self) -> i128
        ensures { result ≡ integer_of self.now }
    {
        signed(self.natural())
    }
}
