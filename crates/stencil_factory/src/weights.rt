//! Processes the weights that a caller gave for a mask: their common multiple, the points they name, and the amounts they add. Weights
//! of 0 are skipped.

ghost use Rattle.std.specs.Prelude.{◌≡◌, ℕ, ◌*◌, ◌/◌, ◌^◌, ◌<◌, ◌≤◌, true, [], ◌∷◌, length, map, max, get_or, OnOk};
ghost use Rattle.std.specs.Int.{trailing_zeros, w64};
ghost use Rattle.std.specs.List.{All};
ghost use Rattle.subdiv_model.specs.Multiples.{lcm_of, lcm_of_all};
ghost use Rattle.subdiv_model.specs.Channel.{number_bound};
ghost use Rattle.child_masks.specs.Survey.{within_bound};
ghost use Rattle.stencil_factory.specs.Rows.{support_of};
ghost use Rattle.place_sums.specs.Sums.{added_shares};
ghost use Rattle.stencil_factory.specs.Flat.{CanAddAll};
ghost use Rattle.stencil_factory.specs.PlaceSet.{with_places};
ghost use Rattle.stencil_factory.specs.Joined.{amounts_of, weighing};
ghost use Rattle.stencil_factory.specs.Powers.{IsPower, IsWordPower, IsGreaterPower};

use crate::flat::add_point;
use crate::place_set::PlaceSet;
use child_masks::common_multiple;
use number_width::Natural;
use place_sums::PlaceSums;
use ratio128::Memory;

// Returns the least common multiple of `multiple` and the point's denominator, or 0 if it is above 2^126 - 1.
// A weight of 0 leaves `multiple` unchanged.
fn multiple_with(multiple: u128, weight: &(u32, u128), dens: &[u128]) -> u128
    requires { weight.now.0 < length dens.now }
    ensures none { weight.now.1 ≡ 0 → result ≡ multiple }
    ensures some { 0 < weight.now.1 → (a b : ℕ) → 0 < a → 0 < b → multiple ≡ within_bound a → get_or dens.now weight.now.0 0 ≡ within_bound b → result ≡ within_bound (lcm_of a b) }
{
    if weight.1 == 0 {
        return multiple;
    }
    common_multiple(multiple, dens[weight.0 as usize])
}

// Returns the least common multiple of the denominators of the points with a weight above 0, or 0 if it is above 2^126 - 1.
fn common_multiple_of_weights(weights: &[(u32, u128)], dens: &[u128]) -> u128
    requires inside { All (λ share. share.0 < length dens.now) weights.now }
    requires positive { All (λ den. 0 < den) dens.now }
    requires short { All (λ den. den ≤ number_bound) dens.now }
    ensures { result ≡ within_bound (lcm_of_all (map (λ v. get_or dens.now v 1) (support_of (weighing weights.now)))) }
{
    let mut multiple = 1;
    for weight in weights {
        multiple = multiple_with(multiple, weight, dens);
    }
    multiple
}

// Returns whether a number is a power of two, from its lowest bits.
fn is_power(n: u64) -> bool
    requires { 0 < n }
    ensures power { result ≡ true → IsPower n }
    ensures shifted { result ≡ true → n / 2 ^ trailing_zeros w64 n ≡ 1 }
{
    n >> n.trailing_zeros() == 1
}

// Returns the greater of `greatest` and the point's denominator. Returns 0 if either is 0, or if the denominator is no power of two of
// 64 bits. A weight of 0 leaves `greatest` unchanged.
fn power_with(greatest: u64, weight: &(u32, u128), dens: &[u128]) -> u64
    requires { weight.now.0 < length dens.now }
    ensures none { weight.now.1 ≡ 0 → result ≡ greatest }
    ensures some { 0 < weight.now.1 → 0 < result → IsGreaterPower greatest (get_or dens.now weight.now.0 0) result }
{
    if weight.1 == 0 {
        return greatest;
    }
    let den = dens[weight.0 as usize];
    if greatest == 0 || den == 0 || den > u64::MAX as u128 || !is_power(den as u64) {
        return 0;
    }
    greatest.max(den as u64)
}

// Returns the greatest denominator of the points with a weight above 0. Returns 0 if one of them is no power of two of 64 bits. Of powers
// of two the greatest is the least common multiple.
fn greatest_power(weights: &[(u32, u128)], dens: &[u128]) -> u64
    requires inside { All (λ share. share.0 < length dens.now) weights.now }
    requires positive { All (λ den. 0 < den) dens.now }
    requires short { All (λ den. den ≤ number_bound) dens.now }
    ensures { 0 < result → result ≡ within_bound (lcm_of_all (map (λ v. get_or dens.now v 1) (support_of (weighing weights.now)))) }
{
    let mut greatest = 1;
    for weight in weights {
        greatest = power_with(greatest, weight, dens);
    }
    greatest
}

/// Returns the least common multiple of the denominators of the points with a weight above 0, or 0 if it is above 2^126 - 1.
pub(crate) fn multiple_of_weights(weights: &[(u32, u128)], dens: &[u128]) -> u128
    requires inside { All (λ share. share.0 < length dens.now) weights.now }
    requires positive { All (λ den. 0 < den) dens.now }
    requires short { All (λ den. den ≤ number_bound) dens.now }
    ensures { result ≡ within_bound (lcm_of_all (map (λ v. get_or dens.now v 1) (support_of (weighing weights.now)))) }
{
    let greatest = greatest_power(weights, dens);
    if greatest > 0 {
        u128::from(greatest)
    } else {
        common_multiple_of_weights(weights, dens)
    }
}

// Returns whether a number is a power of two of 64 bits.
fn is_word_power(n: u128) -> bool
    requires { 0 < n }
    ensures { result ≡ true → IsWordPower n }
{
    n <= u64::MAX as u128 && is_power(n as u64)
}

/// Returns whether each denominator is a power of two of 64 bits.
pub(crate) fn are_word_powers(dens: &[u128]) -> bool
    requires { All (λ den. 0 < den) dens.now }
    ensures { result ≡ true → All IsWordPower dens.now }
{
    for den in dens {
        if !is_word_power(*den) {
            return false;
        }
    }
    true
}

// Returns the greater of `greatest` and the point's denominator. A weight of 0 leaves `greatest` unchanged.
fn greater_with(greatest: u64, weight: &(u32, u128), dens: &[u128]) -> u64
    requires known { weight.now.0 < length dens.now }
    requires powers { All IsWordPower dens.now }
    ensures none { weight.now.1 ≡ 0 → result ≡ greatest }
    ensures some { 0 < weight.now.1 → result ≡ max greatest (get_or dens.now weight.now.0 0) }
{
    if weight.1 == 0 {
        return greatest;
    }
    greatest.max(dens[weight.0 as usize] as u64)
}

/// Returns the greatest denominator of the points with a weight above 0. All denominators are powers of two of 64 bits.
pub(crate) fn greatest_of_powers(weights: &[(u32, u128)], dens: &[u128]) -> u64
    requires inside { All (λ share. share.0 < length dens.now) weights.now }
    requires positive { All (λ den. 0 < den) dens.now }
    requires short { All (λ den. den ≤ number_bound) dens.now }
    requires powers { All IsWordPower dens.now }
    ensures { result ≡ within_bound (lcm_of_all (map (λ v. get_or dens.now v 1) (support_of (weighing weights.now)))) }
{
    let mut greatest = 1;
    for weight in weights {
        greatest = greater_with(greatest, weight, dens);
    }
    greatest
}

// Adds the point of a weight to the set if the weight is above 0.
fn name_weight(members: &mut PlaceSet, weight: &(u32, u128)) -> Result<(), Memory>
    requires { weight.now.0 < members.old.count }
    ensures { OnOk result (members.new ≡ with_places (support_of (weighing (weight.now ∷ []))) members.old) }
{
    if weight.1 == 0 {
        return Ok(());
    }
    members.add(weight.0)
}

/// Adds the points that have a weight above 0 to the set.
pub(crate) fn name_weights(members: &mut PlaceSet, weights: &[(u32, u128)]) -> Result<(), Memory>
    requires { All (λ share. share.0 < members.old.count) weights.now }
    ensures { OnOk result (members.new ≡ with_places (support_of (weighing weights.now)) members.old) }
{
    let mut rest = weights;
    while let [weight, others @ ..] = rest {
        name_weight(members, weight)?;
        rest = others;
    }
    Ok(())
}

// Adds `weight * (multiple / den)` at a point, where `den` is the point's denominator. It skips a weight of 0.
fn add_weight<T: Natural>(
    sums: &mut PlaceSums<T>,
    weight: &(u32, u128),
    multiple: u128,
    dens: &[u128],
)
    requires known { weight.now.0 < length dens.now }
    requires positive { All (λ den. 0 < den) dens.now }
    requires can { CanAddAll T.most (amounts_of dens.now multiple (weighing (weight.now ∷ []))) sums.old }
    ensures { sums.new ≡ added_shares 1 (amounts_of dens.now multiple (weighing (weight.now ∷ []))) sums.old }
{
    if weight.1 == 0 {
        return;
    }
    add_point(sums, weight.0, weight.1, multiple, dens);
}

/// Adds `weight * (multiple / den)` at the point of each weight, where `den` is the point's denominator. It skips weights of 0.
pub(crate) fn add_weights<T: Natural>(
    sums: &mut PlaceSums<T>,
    weights: &[(u32, u128)],
    multiple: u128,
    dens: &[u128],
)
    requires known { All (λ share. share.0 < length dens.now) weights.now }
    requires positive { All (λ den. 0 < den) dens.now }
    requires can { CanAddAll T.most (amounts_of dens.now multiple (weighing weights.now)) sums.old }
    ensures { sums.new ≡ added_shares 1 (amounts_of dens.now multiple (weighing weights.now)) sums.old }
{
    let mut rest = weights;
    while let [weight, others @ ..] = rest {
        add_weight(sums, weight, multiple, dens);
        rest = others;
    }
}
