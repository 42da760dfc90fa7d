ghost use Rattle.std.specs.Prelude.{◌≡◌, true, false, MatchOption};
ghost use Rattle.subdiv_model.specs.Index.{is_index, nearest_index};

use crate::digits::digits_up_to;

// The greatest amount of an index that the reader distinguishes: that of the least `i64`.
const MOST: u128 = 1 << 63;

/// Reads an index: an optional `-` and one or more decimal digits.
///
/// Returns `None` for any other word. An index beyond the range of `i64` becomes the nearest end of that range (this profile).
pub fn read_index(word: &[u8]) -> Option<i64>
    ensures { MatchOption result (is_index word.now ≡ false)
        (λ i. (is_index word.now ≡ true) × (i ≡ nearest_index word.now)) }
{
    match word {
        [b'-', amount @ ..] => Some(-(digits_up_to(amount, MOST)? as i128) as i64),
        _ => Some(digits_up_to(word, MOST - 1)? as i64),
    }
}
