//! Examples of rules, masks and weights between two rules, each proved by computing.

ghost use Rattle.std.specs.Prelude.{◌≡◌, ◌^◌, true, false, [], ◌∷◌, ◌++◌};
ghost use Rattle.subdiv_model.specs.Child.{refined_level};
ghost use Rattle.subdiv_model.specs.ExampleControls.{cube_ring, octahedron_vertex_terms, repeated_terms};
ghost use Rattle.subdiv_model.specs.Examples.{corner_cube, cube, cube_of_two_creases, octahedron_of_four_creases, octahedron_of_two_creases, square, tagged_level, two_triangles};
ghost use Rattle.subdiv_model.specs.Level.{plain_level};
ghost use Rattle.subdiv_model.specs.Mask.{CatmullClark, Linear, edge_mask, has_means, mask_of, mask_terms, vertex_mask, weigh_faces, weigh_points};
ghost use Rattle.subdiv_model.specs.Rule.{CornerRule, transition_overflows, transition_weight, vertex_rule};
ghost use Rattle.subdiv_model.specs.Sharpness.{Chaikin, Infinite, Semi, Smooth};

/// If the only sharp items at a vertex are edges of sharpness 1/2 and 1/3, the weight is 5/12.
pub fn weight_of_a_half_and_a_third()
    ensures { transition_weight Smooth Smooth (Semi 1 2 ∷ Semi 1 3 ∷ Smooth ∷ []) (Smooth ∷ Smooth ∷ Smooth ∷ []) ≡ (5, 12) }
{}

/// The mean has the count times the common denominator as its denominator, at most 2^60.
pub fn too_fine_for_a_mean()
    ensures greatest { transition_overflows Smooth Smooth (Semi 1 (2 ^ 59) ∷ Semi 1 (2 ^ 59) ∷ []) (Smooth ∷ Smooth ∷ []) ≡ false }
    ensures three { transition_overflows (Semi 1 (2 ^ 59)) Smooth (Semi 1 (2 ^ 59) ∷ Semi 1 (2 ^ 59) ∷ []) (Smooth ∷ Smooth ∷ []) ≡ true }
    ensures kept { transition_overflows (Semi 1 (2 ^ 59)) (Semi 1 2) (Semi 1 (2 ^ 59) ∷ Semi 1 (2 ^ 59) ∷ []) (Smooth ∷ Smooth ∷ []) ≡ false }
    ensures apart { transition_overflows Smooth Smooth (Semi 1 (2 ^ 59) ∷ Semi 1 3 ∷ []) (Smooth ∷ Smooth ∷ []) ≡ true }
{}

/// Three sharp edges make a corner, and so does a vertex without edges. A point without edges stays where it is.
pub fn corners_without_a_sharp_vertex()
    ensures three { vertex_rule Smooth (Semi 1 2 ∷ Infinite ∷ Smooth ∷ Semi 1 1 ∷ []) ≡ CornerRule }
    ensures none { vertex_rule Smooth [] ≡ CornerRule }
    ensures stays { vertex_mask (plain_level 9 cube) CatmullClark 8 ≡ record { terms = weigh_points 1 (8 ∷ []); denominator = 1 } }
{}

/// A vertex of sharpness 1/2 on the cube: its mask is half corner and half smooth.
pub fn corner_of_sharpness_one_half()
    ensures { vertex_mask (corner_cube (Semi 1 2)) CatmullClark 3
        ≡ record {
          terms = weigh_points 12 (3 ∷ []) ++ (weigh_points 1 (1 ∷ 2 ∷ 5 ∷ []) ++ weigh_faces 1 (0 ∷ 1 ∷ 4 ∷ []));
          denominator = 18;
        } }
{}

/// A corner of sharpness 1 ends in the next level, with a weight of 1: it keeps the mask of this level.
pub fn corner_of_sharpness_one()
    ensures { vertex_mask (tagged_level 8 cube [] ((0, Semi 1 1) ∷ [])) CatmullClark 0 ≡ record { terms = weigh_points 1 (0 ∷ []); denominator = 1 } }
{}

/// An edge of sharpness 1/2 between faces 0 and 4 of the cube: weights 3, 3, 1, 1 over 8.
pub fn edge_of_sharpness_one_half()
    ensures { edge_mask (tagged_level 8 cube (((3, 1), Semi 1 2) ∷ []) []) CatmullClark (1, 3)
        ≡ record { terms = weigh_points 3 (1 ∷ 3 ∷ []) ++ weigh_faces 1 (0 ∷ 4 ∷ []); denominator = 8 } }
{}

/// A smooth vertex of two edges: its own weight is 0, so the mask omits it.
pub fn smooth_vertex_of_two_edges()
    ensures { vertex_mask (plain_level 3 two_triangles) CatmullClark 0
        ≡ record { terms = weigh_points 1 (1 ∷ 2 ∷ []) ++ weigh_faces 1 (0 ∷ 1 ∷ []); denominator = 4 } }
{}

/// The masks of the first two steps on the cube and on two triangles back to back are means.
pub fn masks_of_small_meshes()
    ensures cube { has_means (plain_level 8 cube) CatmullClark ≡ true }
    ensures cube_again { has_means (refined_level (plain_level 8 cube) 1) CatmullClark ≡ true }
    ensures triangles { has_means (plain_level 3 two_triangles) CatmullClark ≡ true }
    ensures linear { has_means (plain_level 8 cube) Linear ≡ true }
    ensures open { has_means (tagged_level 4 square [] []) CatmullClark ≡ true }
{}

/// A vertex of sharpness 1/4 on the cube: its mask is a quarter corner and three quarters smooth.
pub fn corner_of_sharpness_one_quarter()
    ensures { vertex_mask (corner_cube (Semi 1 4)) CatmullClark 3
        ≡ record {
          terms = weigh_points 18 (3 ∷ []) ++ (weigh_points 3 (1 ∷ 2 ∷ 5 ∷ []) ++ weigh_faces 3 (0 ∷ 1 ∷ 4 ∷ []));
          denominator = 36;
        } }
{}

/// Edges of sharpness 3/4 and 1 on the cube.
pub fn edges_of_three_quarters_and_one()
    ensures below_one { edge_mask (tagged_level 8 cube (((1, 3), Semi 3 4) ∷ []) []) CatmullClark (1, 3)
        ≡ record { terms = weigh_points 7 (1 ∷ 3 ∷ []) ++ weigh_faces 1 (0 ∷ 4 ∷ []); denominator = 16 } }
    ensures one { edge_mask (tagged_level 8 cube (((1, 3), Semi 1 1) ∷ []) []) CatmullClark (1, 3) ≡ record { terms = weigh_points 1 (1 ∷ 3 ∷ []); denominator = 2 } }
    ensures linear { edge_mask (plain_level 8 cube) Linear (1, 3) ≡ record { terms = weigh_points 1 (1 ∷ 3 ∷ []); denominator = 2 } }
{}

/// Edges of 1/2 and 3/2 at a vertex of the octahedron. Its mask is half crease, over 8, and half smooth, over 16; the denominator
/// is twice their least common multiple.
pub fn crease_and_dart_of_the_octahedron()
    ensures terms { (vertex_mask octahedron_of_two_creases CatmullClark 4).terms ≡ octahedron_vertex_terms }
    ensures denominator { (vertex_mask octahedron_of_two_creases CatmullClark 4).denominator ≡ 32 }
{}

/// A vertex on a crease, and one that is infinitely sharp on it.
pub fn vertices_on_a_crease()
    ensures crease { vertex_mask (tagged_level 8 cube cube_ring []) CatmullClark 3 ≡ record { terms = weigh_points 6 (3 ∷ []) ++ weigh_points 1 (1 ∷ 2 ∷ []); denominator = 8 } }
    ensures corner { vertex_mask (tagged_level 8 cube cube_ring ((3, Infinite) ∷ [])) CatmullClark 3 ≡ record { terms = weigh_points 1 (3 ∷ []); denominator = 1 } }
    ensures boundary { vertex_mask (tagged_level 4 square [] []) CatmullClark 0 ≡ record { terms = weigh_points 6 (0 ∷ []) ++ weigh_points 1 (1 ∷ 3 ∷ []); denominator = 8 } }
{}

/// Rules of two levels that give the same mask. A dart turns smooth, one of four sharp edges of a corner ends, and the Chaikin
/// method keeps a crease.
pub fn rules_without_a_transition()
    ensures dart { (vertex_mask (tagged_level 8 cube (((0, 1), Semi 1 2) ∷ []) []) CatmullClark 1).denominator ≡ 9 }
    ensures corner { vertex_mask octahedron_of_four_creases CatmullClark 4 ≡ record { terms = weigh_points 1 (4 ∷ []); denominator = 1 } }
    ensures crease { vertex_mask (cube_of_two_creases Chaikin (Semi 1 2) (Semi 3 1)) CatmullClark 1
        ≡ record { terms = weigh_points 6 (1 ∷ []) ++ weigh_points 1 (0 ∷ 3 ∷ []); denominator = 8 } }
{}

/// Terms of one source are joined at its first place, and terms of weight 0 are omitted.
pub fn terms_of_one_source()
    ensures { mask_of repeated_terms 9
        ≡ record { terms = weigh_points 3 (5 ∷ []) ++ (weigh_points 2 (4 ∷ []) ++ weigh_faces 4 (5 ∷ [])); denominator = 9 } }
{}

/// The number of mask terms of a step: seven for a vertex, four for a face and four for an edge of the cube.
pub fn mask_terms_of_the_cube()
    ensures smooth { mask_terms (plain_level 8 cube) CatmullClark ≡ 128 }
    ensures linear { mask_terms (plain_level 8 cube) Linear ≡ 56 }
{}
