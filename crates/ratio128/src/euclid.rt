ghost use Rattle.std.specs.Prelude.{◌≡◌, ℕ, ◌*◌, ◌%◌, ◌<◌, ◌^◌};
ghost use Rattle.std.specs.Int.{IsGcd, trailing_zeros, w64, w128};

// Returns the odd part of a number above 0: the number without its factors of two.
pub(crate) fn odd_part(n: u128) -> u128
    requires { 0 < n }
    ensures odd { result % 2 ≡ 1 }
    ensures whole { result * 2 ^ trailing_zeros w128 n ≡ n }
{
    n >> n.trailing_zeros()
}

// Returns the odd part of a word above 0: the word without its factors of two.
fn odd_word(word: u64) -> u64
    requires { 0 < word }
    ensures odd { result % 2 ≡ 1 }
    ensures whole { result * 2 ^ trailing_zeros w64 word ≡ word }
{
    word >> word.trailing_zeros()
}

// Returns the greatest common divisor of odd words. Each step subtracts and shifts out factors of two, without a division.
fn gcd_of_odd_words(a: u64, b: u64) -> u64
    requires left { a % 2 ≡ 1 }
    requires right { b % 2 ≡ 1 }
    ensures { IsGcd a b result }
{
    let mut x = a;
    let mut y = b;
    while x != y {
        let difference = x.max(y) - x.min(y);
        x = x.min(y);
        y = odd_word(difference);
    }
    x
}

// Returns the greatest common divisor of odd numbers. Euclid's algorithm runs until the lesser number fits a word of 64 bits, then the
// words are used. Each remainder loses its factors of two, because no odd number has them.
pub(crate) fn gcd_of_odds(a: u128, b: u128) -> u128
    requires left { a % 2 ≡ 1 }
    requires right { b % 2 ≡ 1 }
    ensures { IsGcd a b result }
{
    let mut left = a;
    let mut right = b;
    while right > u64::MAX as u128 {
        let rest = left % right;
        if rest == 0 {
            return right;
        }
        left = right;
        right = odd_part(rest);
    }
    let word = right as u64;
    let rest = (left % right) as u64;
    if rest == 0 {
        return right;
    }
    gcd_of_odd_words(word, odd_word(rest)) as u128
}
