//! The draws of a seed, from a linear congruential generator.

ghost use Rattle.std.specs.Prelude.{◌≡◌, ◌<◌, ◌%◌, ◌^◌, IfOk};
ghost use Rattle.subdiv_model.specs.Generator.{drawn_next, drawn_value, draws_from};

use ratio128::Memory;
use std::alloc::Global;

// The state after a draw. The product fits, since the state before has 31 bits.
fn next(x: u64) -> u64
    requires { x < 2 ^ 31 }
    ensures next { result ≡ drawn_next x }
    ensures short { result < 2 ^ 31 }
{
    (1103515245 * x + 12345) % (1 << 31)
}

// The value of a draw, from 0 to 6.
fn value(x: u64) -> u8
    ensures { result ≡ drawn_value x }
{
    (x / 65536 % 7) as u8
}

// The values of the first `count` draws.
pub(crate) fn draws_of_seed(alloc: Global, seed: u32, count: u32) -> Result<Vec<u8>, Memory>
    ensures { IfOk result (λ draws. draws.items ≡ draws_from count (seed % 2 ^ 31)) }
{
    let mut draws = Vec::with_capacity(alloc, count as usize)?;
    let mut x = seed as u64 % (1 << 31);
    for _ in 0..count {
        x = next(x);
        draws.push(value(x))?;
    }
    Ok(draws)
}
