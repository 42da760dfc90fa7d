//! Examples and laws of OBJ texts, their faults and their meshes. Each function has an empty body: its clauses are the laws.

ghost use Rattle.std.specs.Prelude.{◌≡◌, ◌+◌, pos, negsuc, false, true, None, Some, [], ◌∷◌, ◌++◌, codes};
ghost use Rattle.subdiv_model.specs.Examples.{cube};
ghost use Rattle.subdiv_model.specs.ExampleTexts.{cube_text, other_cube_text};
ghost use Rattle.subdiv_model.specs.Sharpness.{Smooth, Semi, Infinite, Chaikin};
ghost use Rattle.subdiv_model.specs.Boundary.{EdgeAndCorner};
ghost use Rattle.subdiv_model.specs.ObjFault.{BadNumeral, NumberRange, UnknownKeyword, Continuation, ShortLine, BadCorner, IndexRange, BadTag, TagIndex, SharpnessRange};
ghost use Rattle.subdiv_model.specs.ReadObj.{read_obj_fault, read_obj_mesh};

/// Each cause that reading reports, with its line.
pub fn faults_of_texts()
    ensures numeral { read_obj_fault (codes "\n# v\nv 0 nan 0") 0 ≡ Some (record { line = 3; cause = BadNumeral }) }
    ensures number { read_obj_fault (codes "v 1 2 3\nv 0 1e999999999999 x") 0 ≡ Some (record { line = 2; cause = NumberRange }) }
    ensures unknown { read_obj_fault (codes "v 1 2 3\r\nV 1 2 3\r\n") 0 ≡ Some (record { line = 2; cause = UnknownKeyword }) }
    ensures continued { read_obj_fault (codes "x 1 \\ # y\nf") 0 ≡ Some (record { line = 1; cause = Continuation }) }
    ensures cut { read_obj_fault (codes "v 0 0 0\nf") 0 ≡ Some (record { line = 2; cause = ShortLine }) }
    ensures corner { read_obj_fault (codes "v 0 0 0\nvt 0\nf 1/1 1//1 0/0") 0 ≡ Some (record { line = 3; cause = BadCorner }) }
    ensures index { read_obj_fault (codes "v 0 0 0\nf 1 -2\nv 0 0 0") 0 ≡ Some (record { line = 2; cause = IndexRange }) }
    ensures tag { read_obj_fault (codes "v 0 0 0\nt corner 1/1/0 9 -1 x") 0 ≡ Some (record { line = 2; cause = BadTag }) }
    ensures tag_index { read_obj_fault (codes "v 0 0 0\nt corner 1/1/0 1 x") 0 ≡ Some (record { line = 2; cause = TagIndex }) }
    ensures sharpness { read_obj_fault (codes "t corner 1/1/0 0 0.0000001\nv 0 0 0") 0 ≡ Some (record { line = 1; cause = SharpnessRange }) }
    ensures fine_decimal { read_obj_fault (codes "t corner 1/1/0 0 0.0078125\nv 0 0 0") 0 ≡ Some (record { line = 1; cause = SharpnessRange }) }
    ensures fine_fraction { read_obj_fault (codes "t corner 1/1/0 0 1/1000001\nv 0 0 0") 0 ≡ Some (record { line = 1; cause = SharpnessRange }) }
    ensures nought { read_obj_fault (codes "v 0 1/0 0") 0 ≡ Some (record { line = 1; cause = BadNumeral }) }
{}

/// If no line is bad by itself, a coordinate can still have too many digits over the common denominator of its channel. Dropped
/// coordinates do not count.
pub fn numbers_too_long_over_the_common_denominator()
    ensures position { read_obj_fault (codes "v 0 0 0.1\nv 1e36 0 0\n") 0 ≡ Some (record { line = 2; cause = NumberRange }) }
    ensures least { read_obj_fault (codes "v 1e36 0 0") 1 ≡ Some (record { line = 1; cause = NumberRange }) }
    ensures texture { read_obj_fault (codes "vt 1e36\nvt 0.1") 0 ≡ Some (record { line = 1; cause = NumberRange }) }
    ensures apart { read_obj_fault (codes "vt 1e36\nv 0.1 0 0 0.01") 0 ≡ None }
    ensures dropped { read_obj_fault (codes "v 1e36 0 0 0.1") 0 ≡ None }
    ensures later { read_obj_fault (codes "v 1e36 0 0\nv 0.1 0 0\nx") 0 ≡ Some (record { line = 3; cause = UnknownKeyword }) }
    ensures half { read_obj_fault (codes "v 4e36 0 0.5") 0 ≡ None }
    ensures halved { read_obj_fault (codes "v 5e36 0 0.5") 0 ≡ Some (record { line = 1; cause = NumberRange }) }
{}

/// If the common denominator of a channel passes its bound, the line where it does so is at fault. Of two channels the lesser
/// line is reported.
pub fn common_denominators_past_their_bound()
    ensures most { read_obj_fault (codes "v 1e-37 0 0\nv 0.5 0 0") 0 ≡ None }
    ensures past { read_obj_fault (codes "v 0 0 1/5000000000000000000000000000000000000\nv 0.5 1/3 0\nv 1/9 0 0") 0 ≡ Some (record { line = 2; cause = NumberRange }) }
    ensures not_the_long_line { read_obj_fault (codes "v 1e36 0 0\nv 0 0 1/5000000000000000000000000000000000000\nv 1/3 0 0") 0 ≡ Some (record { line = 3; cause = NumberRange }) }
    ensures least { read_obj_fault (codes "v 1/3 0 0") 37 ≡ Some (record { line = 1; cause = NumberRange }) }
    ensures lesser { read_obj_fault (codes "vt 1e36\nv 1/9999999999999999999999999999999999999 0 0\nvt 0.1\nv 0.5 0 0") 0 ≡ Some (record { line = 1; cause = NumberRange }) }
    ensures other_lesser { read_obj_fault (codes "vt 0.1\nv 1/9999999999999999999999999999999999999 0 0\nv 0.5 0 0\nvt 1e36") 0 ≡ Some (record { line = 3; cause = NumberRange }) }
    ensures apart { read_obj_fault (codes "vt 1/9999999999999999999999999999999999999\nv 0.5 0 0") 0 ≡ None }
{}

/// Texts without fault: marks, comments and blanks are skipped, and an index can name a later line.
pub fn texts_without_fault()
    ensures empty { read_obj_fault [] 0 ≡ None }
    ensures mark { read_obj_fault ((239 ∷ 187 ∷ 191 ∷ []) ++ codes "v 1 2 3") 0 ≡ None }
    ensures comment { read_obj_fault (codes " \t\r\n# x\n#\\\nv 0 0 0 # \\") 0 ≡ None }
    ensures later { read_obj_fault (codes "t hole 1/0/0 0\nf 1//7 2//0\nv 1 2 3\nv 1 2 3") 0 ≡ None }
    ensures dropped { read_obj_fault (codes "t facevaryingpropagatecorners 1/0/1 x y\nvn x") 0 ≡ None }
    ensures infinite { read_obj_fault (codes "v 0 0 0\nt corner 1/1/0 0 10.0000001") 0 ≡ None }
    ensures six { read_obj_fault (codes "v 0 0 0\nt corner 1/1/0 0 0.0000010") 0 ≡ None }
    ensures fraction { read_obj_fault (codes "v 0 0 0\nt corner 1/1/0 0 3/3000000") 0 ≡ None }
    ensures infinite_fraction { read_obj_fault (codes "v 0 0 0\nt corner 1/1/0 0 10000010/1000001") 0 ≡ None }
{}

/// The cube in several spellings.
pub fn cube_written_otherwise()
    ensures good { read_obj_fault other_cube_text 0 ≡ None }
    ensures points { (read_obj_mesh other_cube_text 0).points ≡ (read_obj_mesh cube_text 0).points }
    ensures scale { (read_obj_mesh other_cube_text 0).common ≡ 1 }
    ensures faces { (read_obj_mesh other_cube_text 0).faces ≡ cube }
{}

/// Points and texture values, each over the common denominator of its channel, and texture corners.
pub fn channels_and_common_denominators()
    ensures points { (read_obj_mesh (codes "v 1 -2.5 3") 2).points ≡ (pos 100, negsuc 249, pos 300) ∷ [] }
    ensures fractions { (read_obj_mesh (codes "v 5/9 -1/3 2\nv 0.5 0 1/7 1/11") 0).points ≡ (pos 70, negsuc 41, pos 252) ∷ (pos 63, pos 0, pos 18) ∷ [] }
    ensures common { (read_obj_mesh (codes "v 5/9 -1/3 2\nv 0.5 0 1/7 1/11") 0).common ≡ 126 }
    ensures least { (read_obj_mesh (codes "v 1/3 0 0.125") 2).common ≡ 600 }
    ensures texture { (read_obj_mesh (codes "vt 1\nvt 0.25 -2 3.125") 0).texture ≡ (pos 4, pos 0) ∷ (pos 1, negsuc 7) ∷ [] }
    ensures texture_common { (read_obj_mesh (codes "vt 1\nvt 0.25 -2 3.125") 0).texture_common ≡ 4 }
    ensures corners { (read_obj_mesh (codes "v 0 0 0\nvt 0\nf 1/2/5 1/-1/6\nvt 1") 0).texture_corners ≡ (1 ∷ 0 ∷ []) ∷ [] }
    ensures channel { (read_obj_mesh (codes "v 0 0 0\nvt 0\nf 1/1 1/1") 0).has_texture ≡ true }
    ensures partly { (read_obj_mesh (codes "v 0 0 0\nvt 0\nf 1/1 1/1\nf 1//1") 0).has_texture ≡ false }
    ensures no_face { (read_obj_mesh (codes "v 0 0 0\nvt 0") 0).has_texture ≡ false }
{}

/// The mesh keeps tags in the order of the file. The last mode and the last method count.
pub fn tags_in_file_order()
    ensures chain { (read_obj_mesh (codes "t crease 3/1/0 0 2 1 1.50\nt crease 2/1/0 2 0 1e1") 0).creases ≡ ((0, 2), Semi 3 2) ∷ ((2, 1), Semi 3 2) ∷ ((2, 0), Infinite) ∷ [] }
    ensures fraction { (read_obj_mesh (codes "t crease 2/1/0 0 2 6/4") 0).creases ≡ ((0, 2), Semi 3 2) ∷ [] }
    ensures pairs { (read_obj_mesh (codes "t crease 3/2/0 0 2 1 0.2 -0") 0).creases ≡ ((0, 2), Semi 1 5) ∷ ((2, 1), Smooth) ∷ [] }
    ensures corners { (read_obj_mesh (codes "t corner 2/2/0 1 0 1 3\nt corner 1/1/0 1 2") 0).corner_tags ≡ (1, Semi 1 1) ∷ (0, Semi 3 1) ∷ (1, Semi 2 1) ∷ [] }
    ensures holes { (read_obj_mesh (codes "t hole 2/0/0 4 2\nt hole 1/0/0 2") 0).holes ≡ 4 ∷ 2 ∷ 2 ∷ [] }
    ensures mode { (read_obj_mesh (codes "t interpolateboundary 1/0/0 0\nt interpolateboundary 1/0/0 01") 0).boundary ≡ EdgeAndCorner }
    ensures method { (read_obj_mesh (codes "t creasemethod 0/0/1 normal\nt creasemethod 0/0/1 chaikin") 0).method ≡ Chaikin }
{}
