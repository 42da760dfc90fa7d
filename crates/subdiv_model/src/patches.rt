//! Examples of patches, each proved by computing.

ghost use Rattle.std.specs.Prelude.{◌≡◌, true, false, [], ◌∷◌, length, take, drop, codes};
ghost use Rattle.subdiv_model.specs.ExampleControls.{curved_sheet_points, patch_corner_terms};
ghost use Rattle.subdiv_model.specs.ExampleTexts.{sheet_patch_start_text};
ghost use Rattle.subdiv_model.specs.Examples.{cube, sheet, tagged_level};
ghost use Rattle.subdiv_model.specs.Fault.{NoFace, NotRegular, Place, fault_line, fault_status};
ghost use Rattle.subdiv_model.specs.Level.{plain_level};
ghost use Rattle.subdiv_model.specs.Mask.{is_mean};
ghost use Rattle.subdiv_model.specs.Patch.{has_patch, patch_mask, patch_points, patch_text, place_faults, spline_weights};

/// The middle quad of a sheet of three by three has a patch of all points of the sheet. A quad at the rim has no patch.
pub fn patch_of_a_sheet()
    ensures first { take 2 (patch_points (tagged_level 16 sheet [] []) 4) ≡ (0 ∷ 1 ∷ 2 ∷ 3 ∷ []) ∷ (4 ∷ 5 ∷ 6 ∷ 7 ∷ []) ∷ [] }
    ensures last { drop 2 (patch_points (tagged_level 16 sheet [] []) 4) ≡ (8 ∷ 9 ∷ 10 ∷ 11 ∷ []) ∷ (12 ∷ 13 ∷ 14 ∷ 15 ∷ []) ∷ [] }
    ensures middle { place_faults (tagged_level 16 sheet [] []) 4 ≡ [] }
    ensures rim { place_faults (tagged_level 16 sheet [] []) 0 ≡ Place (NotRegular 0) ∷ [] }
    ensures past { place_faults (tagged_level 16 sheet [] []) 9 ≡ Place (NoFace 9) ∷ [] }
    ensures cube { has_patch (plain_level 8 cube) 0 ≡ false }
    ensures line { fault_line (Place (NotRegular 0)) ≡ codes "far: face 0 is not a regular inner face\n" }
    ensures count { fault_line (Place (NoFace 9)) ≡ codes "far: there are 9 faces\n" }
    ensures status { fault_status (Place (NoFace 9)) ≡ 13 }
{}

/// At a corner nine points have a weight, as in a limit mask; in the middle all sixteen do. The weights are means.
pub fn weights_of_a_patch()
    ensures start { spline_weights 1 0 ≡ 1 ∷ 4 ∷ 1 ∷ 0 ∷ [] }
    ensures end { spline_weights 1 1 ≡ 0 ∷ 1 ∷ 4 ∷ 1 ∷ [] }
    ensures middle { spline_weights 2 1 ≡ 1 ∷ 23 ∷ 23 ∷ 1 ∷ [] }
    ensures corner { (patch_mask (tagged_level 16 sheet [] []) 4 1 (0, 0)).terms ≡ patch_corner_terms }
    ensures all { length (patch_mask (tagged_level 16 sheet [] []) 4 2 (1, 1)).terms ≡ 16 }
    ensures mean { is_mean (patch_mask (tagged_level 16 sheet [] []) 4 3 (1, 2)) ≡ true }
{}

/// The text of the patch of a sheet that is curved along its rows.
pub fn text_of_a_patch()
    ensures { take 83 (patch_text (tagged_level 16 sheet [] []) 4 2 1 curved_sheet_points 0) ≡ sheet_patch_start_text }
{}
