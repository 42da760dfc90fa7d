//! Examples of refined values, common denominators and stencil rows, each proved by computing.

ghost use Rattle.std.specs.Prelude.{◌≡◌, ◌+◌, ◌^◌, true, false, [], ◌∷◌, ◌++◌, get_or, replicate, pos, codes};
ghost use Rattle.subdiv_model.specs.Channel.{Sharpnesses, Tables, Values, chaikin_overflows_at, channel_faults, greatest_denominator, has_value_overflow, whole_levels, transition_overflows_at};
ghost use Rattle.subdiv_model.specs.ExampleControls.{cube_ring, cube_x, cube_z, fine_channel, refined_square_x, refined_value_texts, square_x};
ghost use Rattle.subdiv_model.specs.Examples.{cube, cube_of_two_creases, fine_cube, square, tagged_level, tetrahedron, two_triangles};
ghost use Rattle.subdiv_model.specs.Fault.{ChaikinOverflow, Overflow, Positions, Texture, TransitionOverflow, ValueOverflow};
ghost use Rattle.subdiv_model.specs.Fractions.{gcd_of};
ghost use Rattle.subdiv_model.specs.Level.{plain_level};
ghost use Rattle.subdiv_model.specs.Mask.{CatmullClark, Linear};
ghost use Rattle.subdiv_model.specs.NumberText.{value_text};
ghost use Rattle.subdiv_model.specs.Refined.{control_values, point_value, refined_denominators, refined_values};
ghost use Rattle.subdiv_model.specs.Sharpness.{Chaikin, Normal, Semi};
ghost use Rattle.subdiv_model.specs.Support.{entries_after, refined_supports, stencil_numerator};

/// Euclid's algorithm computes with long numbers too.
pub fn gcd_of_long_numbers()
    ensures { gcd_of 2363071992506517107384545884942834801 1152921504606846976 ≡ 1 }
{}

/// Under the linear scheme vertices stay, and each face and each edge gets its middle point.
pub fn square_under_the_linear_scheme()
    ensures { refined_value_texts (tagged_level 4 square [] []) Linear square_x 1 ≡ codes "0" ∷ codes "4" ∷ codes "4" ∷ codes "0" ∷ codes "2" ∷ codes "2" ∷ codes "4" ∷ codes "2" ∷ codes "0" ∷ [] }
{}

/// A crease of sharpness 1/2 between vertices 1 and 3 of the cube moves the point of its edge out. Vertex 1 is a dart: it goes
/// where it goes without the crease.
pub fn semi_sharp_crease_on_the_cube()
    ensures edge { value_text (point_value (refined_values (tagged_level 8 cube (((1, 3), Semi 1 2) ∷ []) []) CatmullClark (control_values cube_x) 1) 15) ≡ codes "7/8" }
    ensures vertex { value_text (point_value (refined_values (tagged_level 8 cube (((1, 3), Semi 1 2) ∷ []) []) CatmullClark (control_values cube_x) 1) 1) ≡ codes "5/9" }
{}

/// Creases of 1/2 and 3/2 at vertex 1 of the cube. The vertex is a crease now and a dart in the next level, half of each.
pub fn fractional_transition_on_the_cube()
    ensures x { value_text (point_value (refined_values (cube_of_two_creases Normal (Semi 1 2) (Semi 3 2)) CatmullClark (control_values cube_x) 1) 1) ≡ codes "47/72" }
    ensures z { value_text (point_value (refined_values (cube_of_two_creases Normal (Semi 1 2) (Semi 3 2)) CatmullClark (control_values cube_z) 1) 1) ≡ codes "7/9" }
{}

/// If the four edges of a face of the cube are infinitely sharp, the crease stays in its plane.
pub fn infinite_crease_on_the_cube()
    ensures x { value_text (point_value (refined_values (tagged_level 8 cube cube_ring []) CatmullClark (control_values cube_x) 1) 3) ≡ codes "3/4" }
    ensures z { value_text (point_value (refined_values (tagged_level 8 cube cube_ring []) CatmullClark (control_values cube_z) 1) 3) ≡ codes "1" }
{}

/// A square whose boundary edges are infinitely sharp: its corner, the point of an edge and the point of the face.
pub fn open_square_refined_once()
    ensures { refined_value_texts (tagged_level 4 square [] []) CatmullClark square_x 1 ≡ refined_square_x }
{}

/// Two steps: vertex 3 of the cube, and vertex 0 of two triangles back to back.
pub fn two_steps_of_refinement()
    ensures cube { value_text (point_value (refined_values (plain_level 8 cube) CatmullClark (control_values cube_x) 2) 3) ≡ codes "55/108" }
    ensures triangles { value_text (point_value (refined_values (plain_level 3 two_triangles) CatmullClark (control_values (pos 0 ∷ pos 12 ∷ pos 0 ∷ [])) 2) 0) ≡ codes "15/4" }
{}

/// The common denominators of the cube after a step: 36 for a vertex, 4 for a face and 16 for an edge.
pub fn denominators_of_the_cube()
    ensures { refined_denominators (plain_level 8 cube) CatmullClark 1
        ≡ replicate 8 36 ++ (replicate 6 4 ++ replicate 12 16) }
{}

/// The greatest common denominator of a square after two steps, and the common denominators of a tetrahedron
/// under the linear scheme.
pub fn common_denominators_of_small_meshes()
    ensures square { greatest_denominator (record { base = tagged_level 4 square [] []; scheme = CatmullClark; greatest = 4; common = 1 }) 2 ≡ 512 }
    ensures linear { refined_denominators (tagged_level 4 tetrahedron [] []) Linear 1 ≡ replicate 4 1 ++ (replicate 4 3 ++ replicate 6 2) }
    ensures none { greatest_denominator (record { base = tagged_level 0 [] [] []; scheme = CatmullClark; greatest = 0; common = 1 }) 3 ≡ 1 }
{}

/// The control points that the points of the cube depend on after a step, and the number of entries.
pub fn supports_of_the_cube()
    ensures vertex { get_or (refined_supports (plain_level 8 cube) CatmullClark 1) 0 [] ≡ 0 ∷ 1 ∷ 2 ∷ 3 ∷ 4 ∷ 6 ∷ 7 ∷ [] }
    ensures face { get_or (refined_supports (plain_level 8 cube) CatmullClark 1) 8 [] ≡ 0 ∷ 1 ∷ 2 ∷ 3 ∷ [] }
    ensures edge { get_or (refined_supports (plain_level 8 cube) CatmullClark 1) 14 [] ≡ 0 ∷ 1 ∷ 2 ∷ 3 ∷ 6 ∷ 7 ∷ [] }
    ensures entries { entries_after (plain_level 8 cube) CatmullClark 1 ≡ 152 }
    ensures linear { entries_after (plain_level 8 cube) Linear 1 ≡ 56 }
    ensures base { entries_after (plain_level 8 cube) CatmullClark 0 ≡ 8 }
{}

/// The shares of control points in points of the cube after a step.
pub fn shares_of_controls()
    ensures itself { stencil_numerator (plain_level 8 cube) CatmullClark 1 0 0 ≡ 15 }
    ensures neighbour { stencil_numerator (plain_level 8 cube) CatmullClark 1 0 2 ≡ 6 }
    ensures corner { stencil_numerator (plain_level 8 cube) CatmullClark 1 0 7 ≡ 1 }
    ensures none { stencil_numerator (plain_level 8 cube) CatmullClark 1 0 5 ≡ 0 }
{}

/// A value overflows if the greatest common denominator, times the greatest numerator or times the common denominator of the
/// channel, passes the bound.
pub fn overflows_of_values()
    ensures greatest { has_value_overflow (whole_levels (record { base = plain_level 8 cube; scheme = CatmullClark; greatest = 2363071992506517107384545884942834801; common = 1 })) 0 ≡ false }
    ensures past { has_value_overflow (whole_levels (record { base = plain_level 8 cube; scheme = CatmullClark; greatest = 2363071992506517107384545884942834802; common = 1 })) 0 ≡ true }
    ensures common { has_value_overflow (whole_levels (record { base = plain_level 8 cube; scheme = CatmullClark; greatest = 0; common = 2363071992506517107384545884942834802 })) 0 ≡ true }
{}

/// Sharpness overflows under the Chaikin method at a vertex of two semi-sharp edges, and in a transition between two masks. Only
/// the Catmull-Clark scheme has transitions.
pub fn overflows_of_sharpness()
    ensures chaikin { chaikin_overflows_at (fine_cube Chaikin) 1 ≡ true }
    ensures other_end { chaikin_overflows_at (fine_cube Chaikin) 0 ≡ false }
    ensures normal { chaikin_overflows_at (fine_cube Normal) 1 ≡ false }
    ensures transition { transition_overflows_at (fine_cube Normal) CatmullClark 1 ≡ true }
    ensures one_mask { transition_overflows_at (tagged_level 8 cube (((0, 1), Semi 1 (2 ^ 60 + 1)) ∷ []) []) CatmullClark 1 ≡ false }
    ensures linear { transition_overflows_at (fine_cube Normal) Linear 1 ≡ false }
{}

/// The faults of a level in order: sharpness, weights, table entries and values.
pub fn faults_of_a_level()
    ensures order { channel_faults Tables fine_channel Positions 1
        ≡ Overflow Positions 1 ChaikinOverflow ∷ Overflow Positions 1 TransitionOverflow ∷ Overflow Positions 1 ValueOverflow ∷ [] }
    ensures sharpness_only { channel_faults Sharpnesses (record { base = plain_level 8 cube; scheme = CatmullClark; greatest = 10 ^ 37; common = 1 }) Positions 1 ≡ [] }
    ensures later { channel_faults Values (record { base = tagged_level 4 square [] []; scheme = CatmullClark; greatest = 10 ^ 36; common = 1 }) Texture 2 ≡ Overflow Texture 2 ValueOverflow ∷ [] }
{}
