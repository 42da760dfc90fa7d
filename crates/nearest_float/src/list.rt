ghost use Rattle.std.specs.Prelude.{◌≡◌, ℕ, ◌<◌, ◌++◌, [], ◌∷◌, MatchResult};
ghost use Rattle.std.specs.Vec.{vec_capacity, vec_len};
ghost use Rattle.ratio128.specs.declared.divisor.Frac.{Frac};
ghost use Rattle.nearest_float.specs.Binary.{binary64};
ghost use Rattle.nearest_float.specs.Exact.{IsExact};
ghost use Rattle.nearest_float.specs.Faults.{IsRefused};
ghost use Rattle.nearest_float.specs.Lists.{AreExact, IsListRefused, IsPushed};

use crate::{FloatFault, ListFault, exact_binary64};
use ratio128::Frac;
use std::alloc::Global;

// Appends the fraction of the bits to a list that has capacity for it.
fn push_exact(fractions: &mut Vec<Frac>, bits: u64) -> Result<(), FloatFault>
    requires { vec_len fractions.old < vec_capacity fractions.old }
    ensures pushed { MatchResult result (λ _. IsPushed binary64 fractions.old.items bits fractions.new.items) (λ fault. IsRefused binary64 bits fault) }
    ensures capacity { vec_capacity fractions.new ≡ vec_capacity fractions.old }
{
    fractions.push_reserved(exact_binary64(bits)?);
    Ok(())
}

/// Returns the exact fractions of binary64 numbers, in order. `At`: the first number without a fraction. `Memory`: memory ran out.
pub fn exact_binary64s(alloc: Global, numbers: &[u64]) -> Result<Vec<Frac>, ListFault>
    ensures { MatchResult result (λ all. AreExact binary64 numbers.now all.items) (λ fault. IsListRefused binary64 numbers.now fault) }
{
    let mut fractions = Vec::with_capacity(alloc, numbers.len())?;
    for bits in numbers {
        let place = fractions.len();
        match push_exact(&mut fractions, *bits) {
            Ok(()) => {}
            Err(fault) => return Err(ListFault::At(place, fault)),
        }
    }
    Ok(fractions)
}
