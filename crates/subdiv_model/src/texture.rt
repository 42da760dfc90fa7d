//! Examples of texture seams, channel points and cut meshes, each proved by computing.

ghost use Rattle.std.specs.Prelude.{◌≡◌, true, false, [], ◌∷◌, replicate, pos};
ghost use Rattle.subdiv_model.specs.Cut.{BoundarySeams, CornerSeams, SmoothSeams, channel_points, channel_values, cut_level, is_seam, joined_faces};
ghost use Rattle.subdiv_model.specs.Examples.{half_seamed_quads, joined_quads, seamed_quads, slit_sheet};
ghost use Rattle.subdiv_model.specs.Level.{edge_sharpness_of, vertex_sharpness_of};
ghost use Rattle.subdiv_model.specs.Sharpness.{Infinite, Semi, Smooth};

/// Two quads side by side whose texture numbers differ along their common edge: all eight corners are channel points.
pub fn seam_between_two_quads()
    ensures seam { is_seam seamed_quads (1, 2) ≡ true }
    ensures no_seam { is_seam seamed_quads (0, 1) ≡ false }
    ensures points { channel_points seamed_quads ≡ (0, 0) ∷ (1, 0) ∷ (2, 0) ∷ (3, 0) ∷ (1, 1) ∷ (4, 1) ∷ (5, 1) ∷ (2, 1) ∷ [] }
    ensures polygons { (cut_level SmoothSeams seamed_quads).polygons ≡ (0 ∷ 1 ∷ 2 ∷ 3 ∷ []) ∷ (4 ∷ 5 ∷ 6 ∷ 7 ∷ []) ∷ [] }
    ensures values { channel_values seamed_quads ≡ (pos 0, pos 0) ∷ (pos 1, pos 0) ∷ (pos 1, pos 1) ∷ (pos 0, pos 1) ∷ (pos 4, pos 0) ∷ (pos 5, pos 0) ∷ (pos 5, pos 1) ∷ (pos 4, pos 1) ∷ [] }
{}

/// Two quads with one texture number for each vertex have no seam: the cut mesh has the points of the mesh.
pub fn quads_without_a_seam()
    ensures seam { is_seam joined_quads (1, 2) ≡ false }
    ensures joined { joined_faces joined_quads 1 1 ≡ 0 ∷ 1 ∷ [] }
    ensures polygons { (cut_level SmoothSeams joined_quads).polygons ≡ (0 ∷ 1 ∷ 2 ∷ 3 ∷ []) ∷ (1 ∷ 4 ∷ 5 ∷ 2 ∷ []) ∷ [] }
    ensures inner { edge_sharpness_of (cut_level SmoothSeams joined_quads) (1, 2) ≡ Smooth }
{}

/// An edge is a seam if the texture numbers differ at one end only. The two faces share no channel point at the other end either.
pub fn seam_that_differs_at_one_end()
    ensures seam { is_seam half_seamed_quads (2, 1) ≡ true }
    ensures polygons { (cut_level SmoothSeams half_seamed_quads).polygons ≡ (0 ∷ 1 ∷ 2 ∷ 3 ∷ []) ∷ (4 ∷ 5 ∷ 6 ∷ 7 ∷ []) ∷ [] }
{}

/// A seam that ends inside the mesh ends at one channel point, around which the faces join. The numbers at vertex 1 of a sheet of
/// four quads differ across the edge to the middle vertex.
pub fn seam_that_ends_inside()
    ensures seam { is_seam slit_sheet (1, 4) ≡ true }
    ensures middle { joined_faces slit_sheet 4 0 ≡ 0 ∷ 1 ∷ 2 ∷ 3 ∷ [] }
    ensures divided { joined_faces slit_sheet 1 0 ≡ 0 ∷ [] }
    ensures points { (cut_level SmoothSeams slit_sheet).point_count ≡ 10 }
    ensures boundary { edge_sharpness_of (cut_level SmoothSeams slit_sheet) (1, 2) ≡ Infinite }
    ensures tag { edge_sharpness_of (cut_level SmoothSeams (record slit_sheet { creases = ((4, 5), Semi 5 2) ∷ [] })) (6, 2) ≡ Semi 5 2 }
{}

/// What the modes keep sharp: the points of one face, or all points on the boundary of the cut mesh. Tags of the mesh hold on
/// both sides of a seam.
pub fn modes_of_seams()
    ensures smooth { (cut_level SmoothSeams joined_quads).vertex_sharpness ≡ replicate 6 Smooth }
    ensures one_face { vertex_sharpness_of (cut_level CornerSeams joined_quads) 0 ≡ Infinite }
    ensures two_faces { vertex_sharpness_of (cut_level CornerSeams joined_quads) 1 ≡ Smooth }
    ensures boundary { (cut_level BoundarySeams joined_quads).vertex_sharpness ≡ replicate 6 Infinite }
    ensures inside { vertex_sharpness_of (cut_level BoundarySeams slit_sheet) 3 ≡ Infinite }
    ensures tag { vertex_sharpness_of (cut_level SmoothSeams (record seamed_quads { corner_tags = (2, Semi 5 2) ∷ [] })) 7 ≡ Semi 5 2 }
    ensures crease { edge_sharpness_of (cut_level SmoothSeams (record joined_quads { creases = ((2, 1), Semi 5 2) ∷ [] })) (1, 2) ≡ Semi 5 2 }
    ensures hole { (cut_level SmoothSeams (record seamed_quads { holes = 1 ∷ [] })).holes ≡ false ∷ true ∷ [] }
{}
