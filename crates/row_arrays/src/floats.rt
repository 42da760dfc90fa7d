//! The bits of doubles or floats.

ghost use Rattle.std.specs.Prelude.{◌≡◌, ◌<◌, length, get_or, MatchResult};
ghost use Rattle.nearest_float.specs.Binary.{binary32, binary64};
ghost use Rattle.nearest_float.specs.Exact.{IsExact};
ghost use Rattle.nearest_float.specs.Faults.{IsRefused};
ghost use Rattle.row_arrays.specs.Floats.{bits_at, bits_of, format_of};

use nearest_float::{FloatFault, exact_binary32, exact_binary64};
use ratio128::Frac;

// The bits of numbers that all have one format.
#[derive(Clone, Copy)]
pub(crate) enum Floats<'a> {
    Doubles(&'a [u64]),
    Singles(&'a [u32]),
}

fn exact_double(bits: &[u64], place: usize) -> Result<Frac, FloatFault>
    requires { place < length bits.now }
    ensures { MatchResult result (λ x. IsExact binary64 (get_or bits.now place 0) x.num x.den) (λ fault. IsRefused binary64 (get_or bits.now place 0) fault) }
{
    exact_binary64(bits[place])
}

fn exact_single(bits: &[u32], place: usize) -> Result<Frac, FloatFault>
    requires { place < length bits.now }
    ensures { MatchResult result (λ x. IsExact binary32 (get_or bits.now place 0) x.num x.den) (λ fault. IsRefused binary32 (get_or bits.now place 0) fault) }
{
    exact_binary32(bits[place])
}

impl Floats<'_> {
    pub(crate) fn len(&self) -> usize
        ensures { result ≡ length (bits_of self.now) }
    {
        match self {
            Floats::Doubles(bits) => bits.len(),
            Floats::Singles(bits) => bits.len(),
        }
    }

    // Returns the exact fraction of the number at a place.
    pub(crate) fn exact(&self, place: usize) -> Result<Frac, FloatFault>
        requires { place < length (bits_of self.now) }
        ensures { MatchResult result (λ x. IsExact (format_of self.now) (bits_at self.now place) x.num x.den) (λ fault. IsRefused (format_of self.now) (bits_at self.now place) fault) }
    {
        match self {
            Floats::Doubles(bits) => exact_double(bits, place),
            Floats::Singles(bits) => exact_single(bits, place),
        }
    }
}
