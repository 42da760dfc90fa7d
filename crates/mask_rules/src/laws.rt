//! Laws of equal masks. Each holds for all masks.

ghost use Rattle.std.specs.Prelude.{◌≡◌, ℕ, IsTrue};
ghost use Rattle.subdiv_model.specs.Level.{Level};
ghost use Rattle.subdiv_model.specs.Mask.{Mask, Scheme, SourcePoint, face_mask, edge_mask, vertex_mask};
ghost use Rattle.subdiv_model.specs.Value.{Value};
ghost use Rattle.subdiv_model.specs.Refined.{mask_value, mask_denominator};
ghost use Rattle.sharpness_laws.specs.SameWeights.{is_joined};
ghost use Rattle.mask_rules.specs.Masks.{IsMask, weighted_sum};

/// A mask that meets `IsMask` gives the same sums as the defined mask, over all numbers of the sources. If the defined mask
/// is joined, it also gives the same values and the same denominator.
pub fn equal_masks_have_equal_sums()
    ensures numbers { (mask defined : Mask) (number : SourcePoint → ℕ) → IsMask mask defined
        → weighted_sum number mask ≡ weighted_sum number defined }
    ensures values { (mask defined : Mask) (value : SourcePoint → Value) → IsMask mask defined → IsTrue (is_joined defined)
        → mask_value value mask ≡ mask_value value defined }
    ensures denominators { (mask defined : Mask) (dens : SourcePoint → ℕ) → IsMask mask defined → IsTrue (is_joined defined)
        → mask_denominator dens mask ≡ mask_denominator dens defined }
{}

/// Each mask of a level is joined: it lists each of its sources once, with a weight above 0.
pub fn masks_of_levels_are_joined()
    ensures face { (level : Level) (f : ℕ) → IsTrue (is_joined (face_mask level f)) }
    ensures edge { (level : Level) (scheme : Scheme) (edge : ℕ × ℕ) → IsTrue (is_joined (edge_mask level scheme edge)) }
    ensures vertex { (level : Level) (scheme : Scheme) (v : ℕ) → IsTrue (is_joined (vertex_mask level scheme v)) }
{}
