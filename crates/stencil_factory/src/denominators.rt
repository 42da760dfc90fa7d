//! The denominators of a table's rows, and whether all are powers of two.

ghost use Rattle.std.specs.Prelude.{◌≡◌, ◌*◌, ◌/◌, ◌<◌, ◌≤◌, length, map, get_or};
ghost use Rattle.std.specs.List.{All};
ghost use Rattle.subdiv_model.specs.Channel.{number_bound};
ghost use Rattle.subdiv_model.specs.Multiples.{lcm_of_all};
ghost use Rattle.child_masks.specs.Survey.{within_bound};
ghost use Rattle.stencil_factory.specs.Rows.{support_of};
ghost use Rattle.stencil_factory.specs.Joined.{weighing};

use crate::flat::weight_over;
use crate::weights::{are_word_powers, greatest_of_powers, multiple_of_weights};
use std::marker::Model;

/// The denominators of points. Where all are powers of two, their greatest is a common multiple and a shift divides by each.
#[derive(Drop)]
pub(crate) struct Denominators<'a> {
    list: &'a [u128],
    // If this is true, each denominator is a power of two of 64 bits.
    powers: bool,
}

impl<'a> Model for Denominators<'a> {
    ghost use Rattle.std.specs.Prelude.{◌≡◌, ℕ, true, List};
    ghost use Rattle.std.specs.List.{All};
    ghost use Rattle.stencil_factory.specs.Powers.{IsWordPower};

    ghost Value = { List ℕ };

    ghost view = { λ d. d.list.now };

    ghost invariant = { λ d. d.powers ≡ true → All IsWordPower d.list.now };
}

impl<'a> Denominators<'a> {
    /// Returns these denominators, not tested for powers of two.
    pub(crate) fn untested(list: &'a [u128]) -> Denominators<'a>
        ensures { result ≡ list.now }
    {
        Denominators {
            list,
            powers: false,
        }
    }

    /// Returns these denominators. The call tests each once for a power of two.
    pub(crate) fn tested(list: &'a [u128]) -> Denominators<'a>
        requires { All (λ den. 0 < den) list.now }
        ensures { result ≡ list.now }
    {
        Denominators {
            list,
            powers: are_word_powers(list),
        }
    }

    /// Returns the least common multiple of the denominators of the points with a weight above 0, or 0 if it is above 2^126 - 1.
    pub(crate) fn multiple_of(&self, weights: &[(u32, u128)]) -> u128
        requires inside { All (λ share. share.0 < length self.now) weights.now }
        requires positive { All (λ den. 0 < den) self.now }
        requires short { All (λ den. den ≤ number_bound) self.now }
        ensures { result ≡ within_bound (lcm_of_all (map (λ v. get_or self.now v 1) (support_of (weighing weights.now)))) }
    {
        if self.powers {
            u128::from(greatest_of_powers(weights, self.list))
        } else {
            multiple_of_weights(weights, self.list)
        }
    }

    /// Returns the weight times `multiple / den`, where `den` is the denominator of the weight's point.
    pub(crate) fn amount_of(&self, weight: &(u32, u128), multiple: u128) -> u128
        requires known { weight.now.0 < length self.now }
        requires positive { 0 < get_or self.now weight.now.0 0 }
        requires small { weight.now.1 * (multiple / get_or self.now weight.now.0 0) ≤ number_bound }
        ensures { result ≡ weight.now.1 * (multiple / get_or self.now weight.now.0 0) }
    {
        let den = self.list[weight.0 as usize];
        if self.powers {
            weight.1 * (multiple >> (den as u64).trailing_zeros())
        } else {
            weight_over(weight.1, multiple, den)
        }
    }
}
