ghost use Rattle.std.specs.Prelude.{◌≡◌, ◌^◌, ◌<◌, ◌≤◌, MatchOption, [], length, map};
ghost use Rattle.subdiv_model.specs.Rule.{vertex_rule};
ghost use Rattle.sharpness_rules.specs.Sharp.{sharp_places_from, IsFirstSharp};
ghost use Rattle.sharpness_rules.specs.View.{sharpness_of, rule_of};

use crate::Sharpness;

/// The rule of a vertex. Source: DeRose, Kass and Truong 1998.
#[derive(Clone, Copy, Debug, PartialEq, Eq)]
pub enum Rule {
    /// The vertex has no sharp edge.
    Smooth,
    /// The vertex has one sharp edge.
    Dart,
    /// The vertex has two sharp edges, given by their places in its ring, ascending.
    Crease { first: u32, second: u32 },
    /// The vertex has three or more sharp edges, is sharp itself, or has no edge.
    Corner,
}

/// Returns the rule of a vertex with this sharpness and this ring.
///
/// A sharp vertex and a vertex without edges are corners. The number of sharp edges, those of sharpness above 0, decides otherwise.
pub fn vertex_rule(vertex: Sharpness, ring: &[Sharpness]) -> Rule
    requires short { length ring.now < 2 ^ 32 }
    ensures { rule_of result ≡ vertex_rule (sharpness_of vertex) (map sharpness_of ring.now) }
{
    if vertex.is_sharp() || ring.is_empty() {
        return Rule::Corner;
    }
    let Some(first) = next_sharp(ring, 0) else {
        return Rule::Smooth;
    };
    let Some(second) = next_sharp(ring, first + 1) else {
        return Rule::Dart;
    };
    match next_sharp(ring, second + 1) {
        None => Rule::Crease { first, second },
        Some(_) => Rule::Corner,
    }
}

// Returns the place of the first sharp edge from `from` on.
fn next_sharp(ring: &[Sharpness], from: u32) -> Option<u32>
    requires short { length ring.now < 2 ^ 32 }
    requires within { from ≤ length ring.now }
    ensures { MatchOption result (sharp_places_from from ring.now ≡ []) (IsFirstSharp from ring.now) }
{
    for place in from..ring.len() as u32 {
        if ring[place as usize].is_sharp() {
            return Some(place);
        }
    }
    None
}
