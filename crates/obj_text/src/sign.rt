ghost use Rattle.std.specs.Prelude.{◌≡◌};
ghost use Rattle.subdiv_model.specs.Digits.{has_minus};
ghost use Rattle.subdiv_model.specs.Numeral.{without_sign};

/// Whether the word begins with `-`, and the bytes after its sign.
pub(crate) fn split_sign(word: &[u8]) -> (bool, &[u8])
    ensures negative { result.0 ≡ has_minus word.now }
    ensures rest { result.1.now ≡ without_sign word.now }
{
    match word {
        [b'-', rest @ ..] => (true, rest),
        [b'+', rest @ ..] => (false, rest),
        _ => (false, word),
    }
}
