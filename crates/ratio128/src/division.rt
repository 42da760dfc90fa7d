ghost use Rattle.std.specs.Prelude.{◌≡◌, ◌/◌, ◌<◌};

// Returns the quotient of two words of 64 bits. For a power of two it is a shift.
fn divide_words(a: u64, b: u64) -> u64
    requires { 0 < b }
    ensures { result ≡ a / b }
{
    let twos = b.trailing_zeros();
    if b >> twos == 1 {
        return a >> twos;
    }
    a / b
}

// Returns the quotient by an odd divisor. It divides words of 64 bits where both numbers fit.
fn divide_by_odd(a: u128, b: u128) -> u128
    requires { 0 < b }
    ensures { result ≡ a / b }
{
    if b == 1 {
        return a;
    }
    if a <= u64::MAX as u128 && b <= u64::MAX as u128 {
        return (a as u64 / b as u64) as u128;
    }
    a / b
}

/// Returns the quotient, rounded down. The divisor is at least 1.
///
/// It divides words of 64 bits where both numbers fit. Otherwise it first shifts out the divisor's factors of two.
pub fn quotient(a: u128, b: u128) -> u128
    requires { 0 < b }
    ensures { result ≡ a / b }
{
    if a <= u64::MAX as u128 && b <= u64::MAX as u128 {
        return divide_words(a as u64, b as u64) as u128;
    }
    let twos = b.trailing_zeros();
    divide_by_odd(a >> twos, b >> twos)
}
