//! Examples of levels, of sharpness and of the next level, each proved by computing.

ghost use Rattle.std.specs.Prelude.{◌≡◌, ◌^◌, true, false, [], ◌∷◌, ◌++◌, length, replicate};
ghost use Rattle.subdiv_model.specs.Base.{base_level, tagged_edge};
ghost use Rattle.subdiv_model.specs.Boundary.{EdgeAndCorner, EdgeOnly, Hidden};
ghost use Rattle.subdiv_model.specs.Child.{child_level, child_points, child_polygons, faces_after, refined_level};
ghost use Rattle.subdiv_model.specs.Edges.{edge_number, edges_of, is_closed};
ghost use Rattle.subdiv_model.specs.Examples.{chaikin_cube, creased_cube, cube, cube_of_two_creases, frame, level_in, sheet, square, tagged_level, tagged_mesh, tetrahedron, two_triangles};
ghost use Rattle.subdiv_model.specs.Level.{edge_sharpness_of, is_hole, is_well_formed, plain_level, vertex_sharpness_of};
ghost use Rattle.subdiv_model.specs.Manifold.{is_manifold};
ghost use Rattle.subdiv_model.specs.Sharpness.{Infinite, Normal, Semi, Smooth, chaikin_child, half_overflows, sharpness_of, uniform_child};

/// A sharpness is in lowest terms, and is infinite from 10 on.
pub fn sharpness_in_lowest_terms()
    ensures lowest { sharpness_of 6 4 ≡ Semi 3 2 }
    ensures zero { sharpness_of 0 4 ≡ Smooth }
    ensures ten { sharpness_of 20 2 ≡ Infinite }
    ensures below { sharpness_of 19 2 ≡ Semi 19 2 }
{}

/// The uniform method subtracts 1 and stops at 0.
pub fn uniform_children()
    ensures fraction { uniform_child (Semi 5 2) ≡ Semi 3 2 }
    ensures stops { uniform_child (Semi 1 2) ≡ Smooth }
    ensures infinite { uniform_child Infinite ≡ Infinite }
{}

/// The Chaikin children of edges of sharpness 2 and 4 at a vertex are 3/2 and 5/2.
pub fn chaikin_on_two_and_four()
    ensures first { chaikin_child (Semi 2 1 ∷ Semi 4 1 ∷ []) 0 ≡ Semi 3 2 }
    ensures second { chaikin_child (Semi 2 1 ∷ Semi 4 1 ∷ []) 1 ≡ Semi 5 2 }
{}

/// Three semi-sharp edges: the first half has three quarters of its own sharpness and a quarter of the mean of the others, less
/// 1.
pub fn chaikin_on_three_edges()
    ensures { chaikin_child (Semi 2 1 ∷ Semi 3 1 ∷ Semi 4 1 ∷ []) 0 ≡ Semi 11 8 }
{}

/// The Chaikin method ignores infinite edges. A single semi-sharp edge takes the uniform method.
pub fn chaikin_beside_infinite_edges()
    ensures two { chaikin_child (Infinite ∷ Semi 2 1 ∷ Smooth ∷ Semi 4 1 ∷ []) 1 ≡ Semi 3 2 }
    ensures lone { chaikin_child (Infinite ∷ Semi 5 2 ∷ []) 1 ≡ Semi 3 2 }
    ensures stays { chaikin_child (Infinite ∷ Semi 5 2 ∷ []) 0 ≡ Infinite }
{}

/// A Chaikin half has the denominator 4 (count - 1) times the common denominator, at most 2^60. Sharpness 1/2^59 beside 1/3
/// passes it; 1/2^58 twice, a single semi-sharp edge and an infinite edge do not.
pub fn too_fine_for_chaikin()
    ensures first { half_overflows (Semi 1 (2 ^ 59) ∷ Semi 1 3 ∷ []) 0 ≡ true }
    ensures second { half_overflows (Semi 1 (2 ^ 59) ∷ Semi 1 3 ∷ []) 1 ≡ true }
    ensures greatest { half_overflows (Semi 1 (2 ^ 58) ∷ Semi 1 (2 ^ 58) ∷ []) 0 ≡ false }
    ensures lone { half_overflows (Infinite ∷ Semi 1 (2 ^ 60) ∷ Smooth ∷ []) 1 ≡ false }
    ensures infinite { half_overflows (Infinite ∷ Semi 1 (2 ^ 59) ∷ Semi 1 3 ∷ []) 0 ≡ false }
{}

/// If two tags name an edge or a vertex, the last counts. A tag can name an edge in both directions.
pub fn last_of_two_tags()
    ensures edge { edge_sharpness_of (tagged_level 3 two_triangles (((0, 1), Semi 1 2) ∷ ((1, 0), Semi 3 1) ∷ []) []) (1, 0) ≡ Semi 3 1 }
    ensures vertex { vertex_sharpness_of (tagged_level 3 two_triangles [] ((2, Semi 5 2) ∷ (2, Smooth) ∷ [])) 2 ≡ Smooth }
{}

/// At level 0 a boundary edge is infinitely sharp. The boundary mode decides what else the boundary does.
pub fn boundary_modes_of_a_square()
    ensures edge { edge_sharpness_of (tagged_level 4 square (((1, 0), Semi 1 2) ∷ []) []) (0, 1) ≡ Infinite }
    ensures smooth_corner { vertex_sharpness_of (level_in EdgeOnly 4 square) 2 ≡ Smooth }
    ensures sharp_corner { vertex_sharpness_of (level_in EdgeAndCorner 4 square) 2 ≡ Infinite }
    ensures face { is_hole (level_in EdgeOnly 4 square) 0 ≡ false }
    ensures hidden { is_hole (level_in Hidden 4 square) 0 ≡ true }
{}

/// Two triangles back to back have eight points and six faces at level 1.
pub fn two_triangles_refined()
    ensures points { child_points 3 two_triangles ≡ 8 }
    ensures faces { child_polygons 3 two_triangles ≡ (0 ∷ 5 ∷ 3 ∷ 7 ∷ []) ∷ (1 ∷ 6 ∷ 3 ∷ 5 ∷ []) ∷ (2 ∷ 7 ∷ 3 ∷ 6 ∷ []) ∷ (0 ∷ 7 ∷ 4 ∷ 5 ∷ []) ∷ (2 ∷ 6 ∷ 4 ∷ 7 ∷ []) ∷ (1 ∷ 5 ∷ 4 ∷ 6 ∷ []) ∷ [] }
{}

/// The cube is a closed manifold at levels 0 and 1, with 26 points and 24 faces at level 1.
pub fn cube_refined()
    ensures base { is_manifold 8 cube ≡ true }
    ensures closed { is_closed cube ≡ true }
    ensures points { (refined_level (plain_level 8 cube) 1).point_count ≡ 26 }
    ensures faces { length (refined_level (plain_level 8 cube) 1).polygons ≡ 24 }
    ensures child { is_manifold 26 (refined_level (plain_level 8 cube) 1).polygons ≡ true }
    ensures child_closed { is_closed (refined_level (plain_level 8 cube) 1).polygons ≡ true }
{}

/// A cube with an edge of sharpness 3/2, named from its other end, and a hole. At level 1 the halves of the edge have sharpness
/// 1/2, all else is smooth, and the four children of the hole are holes.
pub fn sharpness_and_holes_of_the_next_level()
    ensures given { edge_sharpness_of creased_cube (1, 3) ≡ Semi 3 2 }
    ensures half { edge_sharpness_of (child_level creased_cube) (15, 1) ≡ Semi 1 2 }
    ensures other_half { edge_sharpness_of (child_level creased_cube) (3, 15) ≡ Semi 1 2 }
    ensures inside { edge_sharpness_of (child_level creased_cube) (8, 15) ≡ Smooth }
    ensures hole { is_hole (child_level creased_cube) 3 ≡ true }
    ensures next_face { is_hole (child_level creased_cube) 4 ≡ false }
{}

/// If vertex 1 of the cube has sharpness 3/2, its point at level 1 has 1/2.
pub fn corner_of_the_next_level()
    ensures { vertex_sharpness_of (child_level (tagged_level 8 cube [] ((1, Semi 3 2) ∷ []))) 1 ≡ Semi 1 2 }
{}

/// Edges of sharpness 1 and 3 that meet at a vertex of the cube, under the Chaikin method. At the vertex their halves have 1/2
/// and 3/2, and at the other ends 0 and 2.
pub fn chaikin_halves_on_the_cube()
    ensures low { edge_sharpness_of (child_level chaikin_cube) (1, 14) ≡ Semi 1 2 }
    ensures high { edge_sharpness_of (child_level chaikin_cube) (1, 15) ≡ Semi 3 2 }
    ensures low_end { edge_sharpness_of (child_level chaikin_cube) (0, 14) ≡ Smooth }
    ensures high_end { edge_sharpness_of (child_level chaikin_cube) (3, 15) ≡ Semi 2 1 }
{}

/// A sheet of nine quads without the middle one, and a point without faces, in each boundary mode. Edges around the gap are
/// boundary edges, and a vertex of two faces is no corner.
pub fn boundary_modes_of_a_frame()
    ensures outside { edge_sharpness_of (level_in EdgeOnly 17 frame) (1, 0) ≡ Infinite }
    ensures round_the_gap { edge_sharpness_of (level_in EdgeOnly 17 frame) (5, 6) ≡ Infinite }
    ensures inner { edge_sharpness_of (level_in EdgeOnly 17 frame) (1, 5) ≡ Smooth }
    ensures smooth_corners { (level_in EdgeOnly 17 frame).vertex_sharpness ≡ replicate 17 Smooth }
    ensures one_face { vertex_sharpness_of (level_in EdgeAndCorner 17 frame) 3 ≡ Infinite }
    ensures two_faces { vertex_sharpness_of (level_in EdgeAndCorner 17 frame) 1 ≡ Smooth }
    ensures three_faces { vertex_sharpness_of (level_in EdgeAndCorner 17 frame) 5 ≡ Smooth }
    ensures no_face { vertex_sharpness_of (level_in EdgeAndCorner 17 frame) 16 ≡ Smooth }
    ensures shown { (level_in EdgeAndCorner 17 frame).holes ≡ replicate 8 false }
    ensures hidden { (level_in Hidden 17 frame).holes ≡ replicate 8 true }
    ensures middle { (level_in Hidden 16 sheet).holes ≡ replicate 4 true ++ (false ∷ replicate 4 true) }
    ensures hidden_corner { vertex_sharpness_of (level_in Hidden 17 frame) 0 ≡ Smooth }
    ensures closed { (level_in Hidden 8 cube).holes ≡ replicate 6 false }
{}

/// An edge has the direction of its first appearance, here from 3 to 1, and is found in both directions.
pub fn edge_named_from_its_greater_end()
    ensures edges { edges_of ((3 ∷ 1 ∷ 0 ∷ []) ∷ []) ≡ (3, 1) ∷ (1, 0) ∷ (0, 3) ∷ [] }
    ensures number { edge_number ((3 ∷ 1 ∷ 0 ∷ []) ∷ []) (0, 1) ≡ 1 }
    ensures tag { tagged_edge (((1, 3), Semi 1 2) ∷ []) (3, 1) ≡ Semi 1 2 }
    ensures half { edge_sharpness_of (child_level (tagged_level 5 ((0 ∷ 3 ∷ 1 ∷ []) ∷ (3 ∷ 0 ∷ 4 ∷ []) ∷ []) (((0, 3), Semi 5 1) ∷ []) [])) (7, 3) ≡ Semi 4 1 }
{}

/// The sharpness of a late vertex and of a late edge, looked up and refined. A point after the last is smooth.
pub fn sharpness_of_late_items()
    ensures vertex { vertex_sharpness_of (tagged_level 8 cube [] ((7, Semi 5 2) ∷ [])) 7 ≡ Semi 5 2 }
    ensures child { vertex_sharpness_of (child_level (tagged_level 8 cube [] ((7, Semi 5 2) ∷ []))) 7 ≡ Semi 3 2 }
    ensures new_point { vertex_sharpness_of (child_level (tagged_level 8 cube [] ((7, Semi 5 2) ∷ []))) 25 ≡ Smooth }
    ensures past { vertex_sharpness_of (tagged_level 8 cube [] ((7, Semi 5 2) ∷ [])) 8 ≡ Smooth }
    ensures edge { edge_sharpness_of (tagged_level 8 cube (((6, 0), Semi 3 1) ∷ []) []) (0, 6) ≡ Semi 3 1 }
    ensures no_edge { edge_sharpness_of (tagged_level 8 cube (((0, 5), Semi 3 1) ∷ []) []) (0, 5) ≡ Smooth }
{}

/// Each level has a mark for each face, and a sharpness for each edge and each point.
pub fn canonical_levels()
    ensures holes { length (child_level creased_cube).holes ≡ 24 }
    ensures edges { length (child_level creased_cube).edge_sharpness ≡ 48 }
    ensures vertices { length (child_level creased_cube).vertex_sharpness ≡ 26 }
    ensures base { is_well_formed creased_cube ≡ true }
    ensures child { is_well_formed (child_level creased_cube) ≡ true }
    ensures short { is_well_formed (record creased_cube { holes = [] }) ≡ false }
{}

/// A triangle that is a hole has three children that are holes.
pub fn triangle_that_is_a_hole()
    ensures { (child_level (base_level (record (tagged_mesh 3 two_triangles [] []) { holes = 1 ∷ [] }))).holes ≡ replicate 3 false ++ replicate 3 true }
{}

/// Edges of sharpness 1 and 3 that meet at a vertex of the cube, after two steps by each method. At the vertex the second edge
/// keeps 1 under the uniform method and 1/4 under Chaikin, from halves of 1/2 and 3/2.
pub fn two_steps_of_sharpness()
    ensures normal_low { edge_sharpness_of (refined_level (cube_of_two_creases Normal (Semi 1 1) (Semi 3 1)) 1) (1, 14) ≡ Smooth }
    ensures normal_high { edge_sharpness_of (refined_level (cube_of_two_creases Normal (Semi 1 1) (Semi 3 1)) 2) (1, 54) ≡ Semi 1 1 }
    ensures chaikin_low { edge_sharpness_of (refined_level chaikin_cube 2) (1, 56) ≡ Smooth }
    ensures chaikin_high { edge_sharpness_of (refined_level chaikin_cube 2) (1, 54) ≡ Semi 1 4 }
{}

/// The numbers of faces of the levels of a cube.
pub fn faces_of_later_levels()
    ensures base { faces_after cube 0 ≡ 6 }
    ensures triangles { faces_after tetrahedron 1 ≡ 12 }
    ensures ten { faces_after cube 10 ≡ 6291456 }
{}
