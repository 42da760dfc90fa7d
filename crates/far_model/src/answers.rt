//! Examples of whole answers to words and bytes: a text or a refusal, each proved by computing.
//@ Points=Fault
//@ Faces=Fault
//@ Valence=Fault

ghost use Rattle.std.specs.Prelude.{◌≡◌, List, [], ◌∷◌, ◌++◌, map, take, pos, Some, None, codes};
ghost use Rattle.subdiv_model.specs.Limits.{count_faults, level_count_faults};
ghost use Rattle.far_model.specs.Answer.{answer, answer_of_made, answer_of_mesh, made_mesh};
ghost use Rattle.far_model.specs.Examples.{cube_leaf, curved_sheet_text, faults_by_status, first_texture, level_faces, level_head, level_of_text, seamed_strip_text, square_levels_text, square_limit_text, square_map_text, square_sparse_text};
ghost use Rattle.subdiv_model.specs.ExampleTexts.{corner_cube_refined_text, cube_text, hidden_square_refined_text, refined_square_points_text, refined_square_text, seamed_text, sharp_square_refined_text, sharp_square_sparse_text, sheet_patch_start_text, sheet_summary_text, square_text, tagged_cube_text};
ghost use Rattle.far_model.specs.Command.{AllFaces, FeatureFaces, MakeCommand, ReadCommand};
ghost use Rattle.subdiv_model.specs.Examples.{cube};
ghost use Rattle.subdiv_model.specs.Fault.{Dart, Fault, FaceSize, IsHole, LevelFaces, Limit, Long, Mesh, NoCorner, NoFace, NotRegular, Obj, Overflow, Place, Positions, Read, SemiSharp, Texture, TooLarge, TransitionOverflow, Usage, Valence, ValueOverflow, fault_line, fault_status, outcome_status};
ghost use Rattle.subdiv_model.specs.Generator.{draws_from, generated_mesh, sheet_faces};
ghost use Rattle.subdiv_model.specs.MeshFault.{NonManifoldEdge, RepeatedVertex};
ghost use Rattle.subdiv_model.specs.ObjFault.{BadTag, UnknownKeyword};
ghost use Rattle.subdiv_model.specs.ObjMesh.{ObjMesh};
ghost use Rattle.subdiv_model.specs.Sharpness.{Semi};

/// `refine` with its options, by the table and level by level, on small meshes.
pub fn refined_meshes()
    ensures square { answer (codes "refine" ∷ codes "depth=1" ∷ []) square_text ≡ record { text = refined_square_text; refusal = None } }
    ensures by_level { answer (codes "refine" ∷ codes "by=level" ∷ codes "depth=1" ∷ []) square_text ≡ answer (codes "refine" ∷ codes "depth=1" ∷ []) square_text }
    ensures sharp_corners { (answer (codes "refine" ∷ codes "depth=1" ∷ []) (square_text ++ codes "t interpolateboundary 1/0/0 1\n")).text ≡ sharp_square_refined_text }
    ensures decimals { (answer (codes "refine" ∷ codes "depth=0" ∷ codes "decimals=1" ∷ []) (codes "v 0.25 -0.75 7\n")).text ≡ codes "v 0.2 -0.8 7.0\n" }
    ensures empty { answer (codes "refine" ∷ codes "depth=3" ∷ []) [] ≡ record { text = []; refusal = None } }
    ensures point { (answer (codes "refine" ∷ codes "depth=3" ∷ []) (codes "v 7 8 9")).text ≡ codes "v 7 8 9\n" }
{}

/// With tags the text of a level includes its holes, and reads as the same level.
pub fn levels_with_their_tags()
    ensures hidden { (answer (codes "refine" ∷ codes "depth=1" ∷ codes "tags=yes" ∷ []) (square_text ++ codes "t interpolateboundary 1/0/0 0\n")).text ≡ hidden_square_refined_text }
    ensures untagged { (answer (codes "refine" ∷ codes "depth=1" ∷ []) (square_text ++ codes "t interpolateboundary 1/0/0 0\n")).text ≡ refined_square_points_text }
    ensures written { (answer (codes "refine" ∷ codes "depth=1" ∷ codes "tags=yes" ∷ []) (cube_text ++ codes "t corner 1/1/0 3 1.5\n")).text ≡ corner_cube_refined_text }
    ensures read_again { level_of_text tagged_cube_text
        ≡ level_of_text (answer (codes "refine" ∷ codes "depth=0" ∷ codes "tags=yes" ∷ codes "decimals=3" ∷ []) tagged_cube_text).text }
{}

/// Channel points and their texture values in each mode.
pub fn refined_texture_of_two_quads()
    ensures smooth { (answer (codes "refine" ∷ codes "depth=0" ∷ []) seamed_text).text ≡ seamed_text }
    ensures smooth_values { first_texture (codes "uv=smooth") ≡ codes "vt 1/8 1/8\n" }
    ensures corner_values { first_texture (codes "uv=corners") ≡ codes "vt 0 0\n" }
    ensures boundary_values { first_texture (codes "uv=boundaries") ≡ codes "vt 0 0\n" }
    ensures linear_values { first_texture (codes "uv=linear") ≡ codes "vt 0 0\n" }
{}

/// The other commands on small meshes.
pub fn levels_tables_and_sheets()
    ensures levels { answer (codes "levels" ∷ codes "depth=0" ∷ []) square_text ≡ record { text = square_levels_text; refusal = None } }
    ensures stencils { (answer (codes "stencils" ∷ codes "depth=0" ∷ []) (codes "v 1 2 3\n")).text ≡ codes "table controls 1 rows 1 entries 1\ns 1 0 1\n" }
    ensures sheet { answer (codes "gen" ∷ codes "seed=0" ∷ codes "size=1" ∷ codes "depth=1" ∷ []) (codes "x") ≡ record { text = sheet_summary_text; refusal = None } }
    ensures moved { answer (codes "frames" ∷ codes "depth=0" ∷ []) (square_text ++ codes "frames\nmove 0 1 1 1\ngo\n") ≡ record { text = codes "frame 1\np 0 1 1 1\n"; refusal = None } }
{}

/// Sparse levels of the square. With sharp corners no face is a feature; with all faces selected each level is whole.
pub fn sparse_levels()
    ensures none { answer (codes "sparse" ∷ codes "depth=1" ∷ []) (square_text ++ codes "t interpolateboundary 1/0/0 1\n")
        ≡ record { text = sharp_square_sparse_text; refusal = None } }
    ensures all { (answer (codes "sparse" ∷ codes "depth=1" ∷ codes "select=all" ∷ codes "uv=none" ∷ []) square_text).text
        ≡ square_sparse_text }
    ensures untextured { answer (codes "sparse" ∷ codes "depth=0" ∷ codes "uv=smooth" ∷ []) square_text ≡ answer (codes "sparse" ∷ codes "depth=0" ∷ []) square_text }
    ensures words { (answer (codes "sparse" ∷ codes "depth=1" ∷ codes "uv=no" ∷ []) square_text).refusal ≡ Some (Usage 2) }
{}

/// The texture of sparse levels: two quads with a seam between them, and three quads. One of the three has no texture corner at
/// depth 1.
pub fn texture_of_sparse_levels()
    ensures seam { level_head AllFaces seamed_text 0 ++ level_head AllFaces seamed_text 1 ≡ codes "level 0 points 6 faces 2 texture 8\nlevel 1 points 15 faces 8 texture 18\n" }
    ensures faces { level_faces AllFaces seamed_text 0 ≡ codes "f s 0 1/1 2/2 3/3 4/4\nf s 1 2/5 5/6 6/7 3/8\n" }
    ensures strip { level_head FeatureFaces seamed_strip_text 0 ++ level_head FeatureFaces seamed_strip_text 1
        ≡ codes "level 0 points 8 faces 3 texture 10\nlevel 1 points 18 faces 10 texture 15\n" }
    ensures without_texture { take 28 (level_faces FeatureFaces seamed_strip_text 1) ≡ codes "f r 1 1 2 3 4\nf r 2 5 6 3 2\n" }
    ensures text { take 35 (answer (codes "sparse" ∷ codes "depth=0" ∷ codes "uv=smooth" ∷ []) seamed_text).text ≡ codes "level 0 points 6 faces 2 texture 8\n" }
{}

/// The leaves of places on the cube, where each face is refined, and the faults of a face without places.
pub fn leaves_of_a_cube()
    ensures middle { cube_leaf 1 2 (1, 1) ≡ codes "p 1 1 level 1 face 0 corner 0 at 1 1\n" }
    ensures beside { cube_leaf 1 2 (2, 0) ≡ codes "p 2 0 level 1 face 1 corner 0 at 0 0\n" }
    ensures opposite { cube_leaf 1 2 (2, 2) ≡ codes "p 2 2 level 1 face 2 corner 0 at 0 0\n" }
    ensures top { cube_leaf 1 2 (1, 2) ≡ codes "p 1 2 level 1 face 2 corner 0 at 1 0\n" }
    ensures end { cube_leaf 1 2 (0, 2) ≡ codes "p 0 2 level 1 face 3 corner 0 at 0 0\n" }
    ensures deeper { cube_leaf 2 4 (1, 1) ≡ codes "p 1 1 level 2 face 0 corner 0 at 1 1\n" }
    ensures whole { (answer (codes "map" ∷ codes "depth=0" ∷ codes "face=0" ∷ codes "grid=1" ∷ []) square_text).text
        ≡ square_map_text }
    ensures past { (answer (codes "map" ∷ codes "depth=2" ∷ codes "face=6" ∷ codes "grid=4" ∷ []) cube_text).refusal ≡ Some (Place (NoFace 6)) }
    ensures corner { (answer (codes "map" ∷ codes "depth=2" ∷ codes "face=0" ∷ codes "grid=4" ∷ codes "corner=1" ∷ []) cube_text).refusal ≡ Some (Place (NoCorner 4)) }
    ensures hole { (answer (codes "map" ∷ codes "depth=2" ∷ codes "face=0" ∷ codes "grid=4" ∷ []) (cube_text ++ codes "t hole 1/0/0 0\n")).refusal ≡ Some (Place (IsHole 0)) }
{}

/// Limit points of the square, and points without a limit point.
pub fn limit_points_of_meshes()
    ensures square { answer (codes "limit" ∷ codes "depth=1" ∷ codes "decimals=2" ∷ []) square_text
        ≡ record { text = square_limit_text; refusal = None } }
    ensures dart { answer (codes "limit" ∷ codes "depth=1" ∷ []) (cube_text ++ codes "t crease 2/1/0 0 1 10\n") ≡ record { text = []; refusal = Some (Limit (Dart 0)) } }
    ensures semi { (answer (codes "limit" ∷ codes "depth=1" ∷ []) (cube_text ++ codes "t crease 2/1/0 0 1 5\n")).refusal ≡ Some (Limit (SemiSharp 0)) }
    ensures depth { (answer (codes "limit" ∷ codes "depth=0" ∷ []) square_text).refusal ≡ Some (Usage 1) }
    ensures line { fault_line (Limit (SemiSharp 0)) ≡ codes "far: vertex 0 is semi-sharp\n" }
    ensures status { fault_status (Limit (Dart 0)) ≡ 9 }
{}

/// The patch of the middle quad of a sheet, and quads without a patch.
pub fn patches_of_a_sheet()
    ensures start { take 83 (answer (codes "patch" ∷ codes "depth=0" ∷ codes "face=4" ∷ codes "grid=2" ∷ []) curved_sheet_text).text
        ≡ sheet_patch_start_text }
    ensures whole { (answer (codes "patch" ∷ codes "grid=2" ∷ codes "face=4" ∷ codes "depth=0" ∷ []) curved_sheet_text).refusal ≡ None }
    ensures rim { answer (codes "patch" ∷ codes "depth=0" ∷ codes "face=0" ∷ codes "grid=2" ∷ []) curved_sheet_text ≡ record { text = []; refusal = Some (Place (NotRegular 0)) } }
    ensures past { (answer (codes "patch" ∷ codes "depth=0" ∷ codes "face=9" ∷ codes "grid=1" ∷ []) curved_sheet_text).refusal ≡ Some (Place (NoFace 9)) }
    ensures grid { (answer (codes "patch" ∷ codes "depth=0" ∷ codes "face=4" ∷ codes "grid=65" ∷ []) curved_sheet_text).refusal ≡ Some (Usage 3) }
    ensures missing { (answer (codes "patch" ∷ codes "depth=0" ∷ codes "grid=1" ∷ []) curved_sheet_text).refusal ≡ Some (Usage 3) }
{}

/// Of several refusals the first is reported.
pub fn refusals_in_their_order()
    ensures words { answer (codes "refine" ∷ []) (codes "x") ≡ record { text = []; refusal = Some (Usage 1) } }
    ensures text { answer (codes "levels" ∷ codes "depth=0" ∷ []) (codes "v 0 0 0\nf 1 1 1\nx\n") ≡ record { text = []; refusal = Some (Obj (record { line = 3; cause = UnknownKeyword })) } }
    ensures mesh { answer (codes "levels" ∷ codes "depth=0" ∷ []) (codes "v 0 0 0\nv 0 0 0\nf 1 2 1\n") ≡ record { text = []; refusal = Some (Mesh (RepeatedVertex 0)) } }
    ensures value { (answer (codes "refine" ∷ codes "depth=1" ∷ []) (square_text ++ codes "v 1e36 0 0\nv 0 0 9e36\n")).refusal ≡ None }
    ensures overflow { (answer (codes "refine" ∷ codes "depth=2" ∷ []) (square_text ++ codes "v 0 0 9e36\n")).refusal ≡ Some (Overflow Positions 2 ValueOverflow) }
    ensures by_level { (answer (codes "refine" ∷ codes "by=level" ∷ codes "depth=2" ∷ []) (square_text ++ codes "v 0 0 9e36\n")).refusal ≡ Some (Overflow Positions 2 ValueOverflow) }
    ensures levels_only { (answer (codes "levels" ∷ codes "depth=2" ∷ []) (square_text ++ codes "v 0 0 9e36\n")).refusal ≡ None }
{}

/// Counts of a mesh and of its levels past their limits.
pub fn counts_past_their_limits()
    ensures faces { level_count_faults cube 10 ≡ TooLarge (LevelFaces 10 6291456) ∷ [] }
    ensures two { map fault_line (level_count_faults cube 10) ≡ codes "far: level 10 has 6291456 faces\n" ∷ [] }
    ensures none { level_count_faults cube 9 ≡ [] }
{}

/// Every command refuses a mesh with a count past its limit for the first such count.
pub fn counts_come_first()
    ensures read { (command : ReadCommand) (mesh : ObjMesh) (fault : Fault) (faults : List Fault) → count_faults mesh ≡ fault ∷ faults
        → (answer_of_mesh command mesh).refusal ≡ Some fault }
    ensures made { (command : MakeCommand) (fault : Fault) (faults : List Fault) → count_faults (made_mesh command) ≡ fault ∷ faults
        → (answer_of_made command).refusal ≡ Some fault }
{}

/// Each fault as a line on standard error, and its status.
pub fn lines_of_faults()
    ensures usage { fault_line (Usage 1) ≡ codes "far: word 1 is not understood\n" }
    ensures read { fault_line Read ≡ codes "far: reading failed\n" }
    ensures long { fault_line Long ≡ codes "far: input is longer than 268435456 bytes\n" }
    ensures obj { fault_line (Obj (record { line = 12; cause = BadTag })) ≡ codes "far: line 12: bad tag\n" }
    ensures mesh { fault_line (Mesh (NonManifoldEdge 0 1)) ≡ codes "far: edge 0 1 has more than two faces\n" }
    ensures size { fault_line (TooLarge (FaceSize 0 65537)) ≡ codes "far: face 0 has 65537 corners\n" }
    ensures valence { fault_line (TooLarge (Valence 3 65537)) ≡ codes "far: vertex 3 has 65537 edges\n" }
    ensures overflow { fault_line (Overflow Texture 2 TransitionOverflow) ≡ codes "far: texture level 2: transition overflow\n" }
    ensures statuses { map fault_status faults_by_status ≡ 2 ∷ 3 ∷ 4 ∷ 6 ∷ 7 ∷ 8 ∷ 10 ∷ 11 ∷ [] }
    ensures good { outcome_status None ≡ 0 }
{}

/// The first draws of seed 0, and the sheet of seed 3 with one crease.
pub fn draws_and_sheets()
    ensures draws { draws_from 4 0 ≡ 0 ∷ 6 ∷ 6 ∷ 4 ∷ [] }
    ensures faces { sheet_faces 1 ≡ (0 ∷ 1 ∷ 3 ∷ 2 ∷ []) ∷ [] }
    ensures points { map (λ p. p.2) (generated_mesh 0 1).points ≡ pos 0 ∷ pos 6 ∷ pos 6 ∷ pos 4 ∷ [] }
    ensures places { take 4 (map (λ p. p.0) (generated_mesh 0 2).points) ≡ pos 0 ∷ pos 10 ∷ pos 20 ∷ pos 0 ∷ [] }
    ensures creases { (generated_mesh 3 2).creases ≡ ((3, 4), Semi 2 1) ∷ ((4, 5), Semi 2 1) ∷ [] }
{}
