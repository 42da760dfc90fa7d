//! Tests of faces.

ghost use Rattle.std.specs.Prelude.{◌≡◌, Bool, Option};
ghost use Rattle.subdiv_model.specs.Feature.{FaceFacts, is_feature, is_selectable};
ghost use Rattle.level_topology.specs.View.{facts_of_code};

use level_topology::FaceFacts;

/// A test of faces, given only by its meaning.
pub trait FaceTest {
    /// Which faces pass the test, given their facts and the value of the test, if the rule keeps one.
    ghost meets: { Option Self → FaceFacts → Bool };
}

/// The test that features pass: faces that are not holes, and are not quads or have an irregular corner.
#[derive(Clone, Copy, Debug, PartialEq, Eq)]
pub struct Feature;

impl FaceTest for Feature {
    ghost meets = { λ _ facts. is_feature facts };
}

/// The test that every face but a hole passes.
#[derive(Clone, Copy, Debug, PartialEq, Eq)]
pub struct Every;

impl FaceTest for Every {
    ghost meets = { λ _ facts. is_selectable facts };
}

/// Whether a face can be selected: it is not a hole.
pub fn is_selectable(facts: &FaceFacts) -> bool
    ensures { result ≡ is_selectable (facts_of_code facts.now) }
{
    !facts.hole
}

/// Whether a face is a feature: it is not a hole, and it is not a quad or has an irregular corner.
pub fn is_feature(facts: &FaceFacts) -> bool
    ensures { result ≡ is_feature (facts_of_code facts.now) }
{
    is_selectable(facts) && (facts.size != 4 || facts.irregular > 0)
}
