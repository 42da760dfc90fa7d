//! Tests of faces by their numbers in the uniform level.

ghost use Rattle.std.specs.Prelude.{◌≡◌, List, map, Option, option_map};
ghost use Rattle.std.specs.List.Sorted.{IsStrictlyIncreasing};
ghost use Rattle.subdiv_model.specs.Polygons.{is_among};
ghost use Rattle.level_topology.specs.View.{facts_of_code};
ghost use Rattle.sparse_texture_laws.specs.Selection.{is_chosen, is_chosen_in};
ghost use Rattle.sparse_face_varying.specs.Chosen.{AreAscending, chosen_by, chosen_in};

use feature_select::FaceTest;
use level_topology::FaceFacts;

/// Selects the faces of one level that have one of these numbers and are not holes. The numbers count the faces of the whole level from
/// 0. Without numbers it selects no face.
#[derive(Clone, Copy, Debug)]
pub struct Chosen<'a> {
    /// The numbers of the faces, ascending.
    pub numbers: &'a [u64],
}

impl FaceTest for Chosen<'_> {
    ghost meets = { λ kept facts. chosen_by (option_map (λ test. test.numbers.now) kept) facts };
}

/// Selects in each level the faces that have one of the level's numbers and are not holes. The lists start with level 0. Past the last
/// list it selects no face.
#[derive(Clone, Copy, Debug)]
pub struct ChosenLevels<'a> {
    /// The numbers of each level's faces, ascending, from level 0 on.
    pub levels: &'a [Vec<u64>],
}

impl FaceTest for ChosenLevels<'_> {
    ghost meets = { λ kept facts. chosen_in (option_map (λ test. map (λ n. n.items) test.levels.now) kept) facts };
}

// Returns whether an ascending list contains a number.
fn has_number(numbers: &[u64], number: u64) -> bool
    ensures { IsStrictlyIncreasing numbers.now → result ≡ is_among numbers.now number }
{
    numbers.binary_search(&number).is_ok()
}

/// Returns whether a face has one of the numbers, which ascend, and is not a hole.
pub(crate) fn is_chosen(numbers: &[u64], facts: &FaceFacts) -> bool
    ensures { IsStrictlyIncreasing numbers.now → result ≡ is_chosen numbers.now (facts_of_code facts.now) }
{
    has_number(numbers, facts.number) && !facts.hole
}

/// Returns whether a face has one of the ascending numbers of its level and is not a hole.
pub(crate) fn is_chosen_in(levels: &[Vec<u64>], facts: &FaceFacts) -> bool
    ensures { AreAscending (map (λ n. n.items) levels.now)
        → result ≡ is_chosen_in (map (λ n. n.items) levels.now) (facts_of_code facts.now) }
{
    match levels.get(facts.level as usize) {
        Some(numbers) => is_chosen(numbers, facts),
        None => false,
    }
}
