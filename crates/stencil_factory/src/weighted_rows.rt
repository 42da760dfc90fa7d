//! Adds rows of points, each times the weight of its point. It skips weights of 0.

ghost use Rattle.std.specs.Prelude.{◌≡◌, ◌<◌, [], ◌∷◌, length};
ghost use Rattle.std.specs.List.{All};
ghost use Rattle.subdiv_model.specs.Channel.{number_bound};
ghost use Rattle.stencil_factory.specs.Rows.{dens_of};
ghost use Rattle.stencil_factory.specs.Composing.{added_rows, CanAddRows};
ghost use Rattle.stencil_factory.specs.Joined.{amounts_of, weighing};

use crate::compose::add_row;
use crate::denominators::Denominators;
use number_width::Natural;
use place_sums::PlaceSums;
use stencil_apply::StencilTable;

// Adds the row of a point times `weight * (multiple / den)`, where `den` is the point's denominator. `dens` are those of the table's rows.
fn add_weighted_row<T: Natural>(
    table: &StencilTable,
    weight: &(u32, u128),
    multiple: u128,
    dens: &Denominators,
    sums: &mut PlaceSums<T>,
)
    requires known { weight.now.0 < length table.now.rows }
    requires dens { dens.now ≡ dens_of table.now }
    requires can { CanAddRows T.most table.now (amounts_of (dens_of table.now) multiple (weighing (weight.now ∷ []))) sums.old }
    requires short { CanAddRows number_bound table.now (amounts_of (dens_of table.now) multiple (weighing (weight.now ∷ []))) sums.old }
    ensures { sums.new ≡ added_rows table.now (amounts_of (dens_of table.now) multiple (weighing (weight.now ∷ []))) sums.old }
{
    if weight.1 == 0 {
        return;
    }
    table.facts();
    let amount = dens.amount_of(weight, multiple);
    add_row(table, weight.0, T::of(amount), sums);
}

/// Adds the row of each point times `weight * (multiple / den)`, where `den` is the point's denominator. `dens` are those of the
/// table's rows.
pub(crate) fn add_weighted_rows<T: Natural>(
    table: &StencilTable,
    weights: &[(u32, u128)],
    multiple: u128,
    dens: &Denominators,
    sums: &mut PlaceSums<T>,
)
    requires known { All (λ share. share.0 < length table.now.rows) weights.now }
    requires dens { dens.now ≡ dens_of table.now }
    requires can { CanAddRows T.most table.now (amounts_of (dens_of table.now) multiple (weighing weights.now)) sums.old }
    requires short { CanAddRows number_bound table.now (amounts_of (dens_of table.now) multiple (weighing weights.now)) sums.old }
    ensures { sums.new ≡ added_rows table.now (amounts_of (dens_of table.now) multiple (weighing weights.now)) sums.old }
{
    table.facts();
    let mut rest = weights;
    while let [weight, others @ ..] = rest {
        add_weighted_row(table, weight, multiple, dens, sums);
        rest = others;
    }
}
