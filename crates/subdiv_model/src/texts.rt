//! Examples of texts of numbers and of refined meshes, each proved by computing.

ghost use Rattle.std.specs.Prelude.{◌≡◌, ◌+◌, ◌^◌, [], ◌∷◌, pos, negsuc, None, codes};
ghost use Rattle.subdiv_model.specs.Boundary.{EdgeAndCorner, Hidden};
ghost use Rattle.subdiv_model.specs.Child.{child_level};
ghost use Rattle.subdiv_model.specs.ExampleControls.{refined_text_of, triangle_points, triangle_points_in_hundredths};
ghost use Rattle.subdiv_model.specs.ExampleTexts.{chaikin_levels_text, cube_text, other_cube_text, refined_cube_text, refined_triangles_text, square_table_text};
ghost use Rattle.subdiv_model.specs.Examples.{chaikin_cube, creased_cube, cube, cube_of_two_creases, holed_triangles, level_in, square, tagged_level, two_triangles};
ghost use Rattle.subdiv_model.specs.Level.{plain_level};
ghost use Rattle.subdiv_model.specs.LevelText.{level_line, levels_text, whole_text};
ghost use Rattle.subdiv_model.specs.Mask.{CatmullClark};
ghost use Rattle.subdiv_model.specs.NumberText.{fraction_text, number_text, rounded_text};
ghost use Rattle.subdiv_model.specs.ReadObj.{read_obj_fault, read_obj_mesh};
ghost use Rattle.subdiv_model.specs.Sharpness.{Normal, Semi};
ghost use Rattle.subdiv_model.specs.TableText.{table_text};
ghost use Rattle.subdiv_model.specs.Text.{face_line, refined_text, tags_text};

/// Fractions in lowest terms.
pub fn fraction_texts()
    ensures negative { fraction_text (negsuc 9) 18 ≡ codes "-5/9" }
    ensures zero { fraction_text (pos 0) 36 ≡ codes "0" }
    ensures half { fraction_text (pos 18) 36 ≡ codes "1/2" }
    ensures whole { fraction_text (negsuc 35) 36 ≡ codes "-1" }
    ensures long { fraction_text (pos (10 ^ 36)) 9 ≡ codes "1000000000000000000000000000000000000/9" }
{}

/// The corners of a face are written from 1.
pub fn corners_are_written_from_one()
    ensures { face_line (0 ∷ 5 ∷ 3 ∷ 7 ∷ []) ≡ codes "f 1 6 4 8\n" }
{}

/// An empty text is a mesh without points, and its refined text is empty.
pub fn empty_text()
    ensures { refined_text_of (read_obj_mesh [] 0) 1 ≡ [] }
{}

/// The cube in several spellings, refined once, from text to text.
pub fn cube_from_text_to_text()
    ensures good { read_obj_fault cube_text 0 ≡ None }
    ensures refined { refined_text_of (read_obj_mesh cube_text 0) 1 ≡ refined_cube_text }
    ensures otherwise { refined_text_of (read_obj_mesh other_cube_text 0) 1 ≡ refined_cube_text }
{}

/// Two triangles back to back, refined once.
pub fn two_triangles_refined_once()
    ensures { refined_text (plain_level 3 two_triangles) CatmullClark 1 triangle_points 1 ≡ refined_triangles_text }
{}

/// Numerators are over the common denominator of their channel, and the text omits a face that is a hole.
pub fn common_denominator_and_hole_in_a_text()
    ensures { refined_text holed_triangles CatmullClark 100 triangle_points_in_hundredths 0 ≡ codes "v 0 1/2 -3/2\nv 1 0 0\nv 0 1/100 0\nf 1 3 2\n" }
{}

/// Whole numbers of any length are written with all digits.
pub fn whole_numbers_as_texts()
    ensures zero { number_text 0 ≡ codes "0" }
    ensures digit { number_text 7 ≡ codes "7" }
    ensures tens { number_text 100200 ≡ codes "100200" }
    ensures long { number_text (10 ^ 70 + 5) ≡ codes "10000000000000000000000000000000000000000000000000000000000000000000005" }
{}

/// Decimals are rounded half to even, and a number rounded to zero has no sign.
pub fn decimals_half_to_even()
    ensures half_down { rounded_text 0 (pos 1) 2 ≡ codes "0" }
    ensures half_up { rounded_text 0 (pos 3) 2 ≡ codes "2" }
    ensures half_below { rounded_text 0 (negsuc 0) 2 ≡ codes "0" }
    ensures negative { rounded_text 2 (negsuc 0) 8 ≡ codes "-0.12" }
    ensures odd { rounded_text 2 (pos 3) 8 ≡ codes "0.38" }
    ensures nothing { rounded_text 2 (negsuc 0) 1000 ≡ codes "0.00" }
    ensures over_half { rounded_text 1 (pos 251) 1000 ≡ codes "0.3" }
    ensures carried { rounded_text 2 (pos 9995) 1000 ≡ codes "10.00" }
    ensures zeros { rounded_text 3 (pos 2005) 1000 ≡ codes "2.005" }
    ensures unreduced { rounded_text 2 (pos 6) 48 ≡ codes "0.12" }
{}

/// The tags of a level: its mode, its method, its sharp inner edges, its sharp vertices and its holes.
pub fn tags_of_a_level()
    ensures none { tags_text (plain_level 8 cube) ≡ codes "t interpolateboundary 1/0/0 2\n" }
    ensures chaikin { tags_text chaikin_cube ≡ codes "t interpolateboundary 1/0/0 2\nt creasemethod 0/0/1 chaikin\nt crease 2/1/0 0 1 1\nt crease 2/1/0 1 3 3\n" }
    ensures hole { tags_text creased_cube ≡ codes "t interpolateboundary 1/0/0 2\nt crease 2/1/0 1 3 3/2\nt hole 1/0/0 0\n" }
    ensures corners { tags_text (level_in EdgeAndCorner 4 square)
        ≡ codes "t interpolateboundary 1/0/0 2\nt corner 1/1/0 0 10\nt corner 1/1/0 1 10\nt corner 1/1/0 2 10\nt corner 1/1/0 3 10\n" }
{}

/// The lines of the levels of a cube with two creases, by each method, and of a hidden square.
pub fn lines_of_levels()
    ensures chaikin { levels_text chaikin_cube 1 ≡ chaikin_levels_text }
    ensures normal { level_line 1 (child_level (cube_of_two_creases Normal (Semi 1 1) (Semi 3 1)))
        ≡ codes "level 1 points 26 edges 48 faces 24 euler 2 boundary 0 holes 0 sharp 2 extraordinary 8\n" }
    ensures hidden { level_line 0 (level_in Hidden 5 square) ≡ codes "level 0 points 5 edges 4 faces 1 euler 1 boundary 4 holes 1 sharp 0 extraordinary 0\n" }
    ensures negative { whole_text (negsuc 0) ≡ codes "-1" }
{}

/// The tables of a square at level 0 and at level 1.
pub fn tables_of_a_square()
    ensures base { table_text (tagged_level 4 square [] []) CatmullClark 0 ≡ codes "table controls 4 rows 4 entries 4\ns 1 0 1\ns 1 1 1\ns 1 2 1\ns 1 3 1\n" }
    ensures refined { table_text (tagged_level 4 square [] []) CatmullClark 1 ≡ square_table_text }
{}
