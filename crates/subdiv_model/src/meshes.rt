//! Examples of polygons, edges, manifolds and mesh faults, each proved by computing.

ghost use Rattle.std.specs.Prelude.{◌≡◌, true, false, [], ◌∷◌, Some, None};
ghost use Rattle.subdiv_model.specs.Edges.{edges_of, faces_of_edge, is_closed};
ghost use Rattle.subdiv_model.specs.Examples.{cube, square, tetrahedron};
ghost use Rattle.subdiv_model.specs.Manifold.{is_manifold};
ghost use Rattle.subdiv_model.specs.MeshFault.{FaceTooSmall, NonManifoldEdge, RepeatedVertex, SplitVertex, WindingClash, first_mesh_fault};

/// A closed tetrahedron has no fault: it is a closed manifold.
pub fn tetrahedron_is_accepted()
    ensures no_fault { first_mesh_fault 4 tetrahedron ≡ None }
    ensures manifold { is_manifold 4 tetrahedron ≡ true }
    ensures closed { is_closed tetrahedron ≡ true }
{}

/// Face 1 has two corners.
pub fn face_of_two_corners()
    ensures fault { first_mesh_fault 4 ((0 ∷ 1 ∷ 2 ∷ []) ∷ (0 ∷ 3 ∷ []) ∷ []) ≡ Some (FaceTooSmall 1) }
    ensures refused { is_manifold 4 ((0 ∷ 1 ∷ 2 ∷ []) ∷ (0 ∷ 3 ∷ []) ∷ []) ≡ false }
{}

/// Face 0 names vertex 1 twice.
pub fn face_that_repeats_a_vertex()
    ensures fault { first_mesh_fault 3 ((1 ∷ 2 ∷ 1 ∷ []) ∷ (0 ∷ 1 ∷ 2 ∷ []) ∷ []) ≡ Some (RepeatedVertex 0) }
    ensures refused { is_manifold 3 ((1 ∷ 2 ∷ 1 ∷ []) ∷ (0 ∷ 1 ∷ 2 ∷ []) ∷ []) ≡ false }
{}

/// Three faces have the edge between 0 and 1. Face 0 names it from 0 to 1.
pub fn edge_of_three_faces()
    ensures fault { first_mesh_fault 5 ((0 ∷ 1 ∷ 2 ∷ []) ∷ (1 ∷ 0 ∷ 3 ∷ []) ∷ (0 ∷ 1 ∷ 4 ∷ []) ∷ []) ≡ Some (NonManifoldEdge 0 1) }
    ensures refused { is_manifold 5 ((0 ∷ 1 ∷ 2 ∷ []) ∷ (1 ∷ 0 ∷ 3 ∷ []) ∷ (0 ∷ 1 ∷ 4 ∷ []) ∷ []) ≡ false }
{}

/// Two faces go from 0 to 1.
pub fn edge_used_twice_in_one_direction()
    ensures fault { first_mesh_fault 4 ((0 ∷ 1 ∷ 2 ∷ []) ∷ (0 ∷ 1 ∷ 3 ∷ []) ∷ []) ≡ Some (WindingClash 0 1) }
    ensures refused { is_manifold 4 ((0 ∷ 1 ∷ 2 ∷ []) ∷ (0 ∷ 1 ∷ 3 ∷ []) ∷ []) ≡ false }
{}

/// Two faces share vertex 0 and no edge.
pub fn vertex_of_two_fans()
    ensures fault { first_mesh_fault 5 ((0 ∷ 1 ∷ 2 ∷ []) ∷ (0 ∷ 3 ∷ 4 ∷ []) ∷ []) ≡ Some (SplitVertex 0) }
    ensures refused { is_manifold 5 ((0 ∷ 1 ∷ 2 ∷ []) ∷ (0 ∷ 3 ∷ 4 ∷ []) ∷ []) ≡ false }
{}

/// A point without faces has one fan, and causes no fault.
pub fn point_without_faces()
    ensures accepted { first_mesh_fault 9 cube ≡ None }
    ensures manifold { is_manifold 9 cube ≡ true }
{}

/// The edges of the cube in order.
pub fn edges_of_the_cube()
    ensures { edges_of cube ≡ (0, 1) ∷ (1, 3) ∷ (3, 2) ∷ (2, 0) ∷ (3, 5) ∷ (5, 4) ∷ (4, 2) ∷ (5, 7) ∷ (7, 6) ∷ (6, 4) ∷ (7, 1) ∷ (0, 6) ∷ [] }
{}

/// A single quad is an open manifold: each of its edges has one face.
pub fn square_is_open()
    ensures manifold { is_manifold 4 square ≡ true }
    ensures open { is_closed square ≡ false }
    ensures edge { faces_of_edge square (1, 0) ≡ 0 ∷ [] }
{}

/// Of faults of different kinds the first kind is reported; within a kind, the least face, the first edge or the least vertex.
pub fn faults_of_different_kinds()
    ensures small_before_repeated { first_mesh_fault 4 ((0 ∷ 1 ∷ 1 ∷ []) ∷ (2 ∷ 3 ∷ []) ∷ []) ≡ Some (FaceTooSmall 1) }
    ensures crowded_before_clash { first_mesh_fault 6 ((0 ∷ 1 ∷ 2 ∷ []) ∷ (0 ∷ 1 ∷ 3 ∷ []) ∷ (2 ∷ 1 ∷ 4 ∷ []) ∷ (1 ∷ 2 ∷ 5 ∷ []) ∷ []) ≡ Some (NonManifoldEdge 1 2) }
    ensures clash_before_split { first_mesh_fault 8 ((0 ∷ 5 ∷ 6 ∷ []) ∷ (0 ∷ 1 ∷ 2 ∷ []) ∷ (2 ∷ 3 ∷ 4 ∷ []) ∷ (2 ∷ 3 ∷ 7 ∷ []) ∷ []) ≡ Some (WindingClash 2 3) }
    ensures least_face { first_mesh_fault 4 ((0 ∷ 1 ∷ 2 ∷ []) ∷ (3 ∷ 1 ∷ 3 ∷ []) ∷ (2 ∷ 2 ∷ 0 ∷ []) ∷ []) ≡ Some (RepeatedVertex 1) }
    ensures least_vertex { first_mesh_fault 9 ((3 ∷ 5 ∷ 6 ∷ []) ∷ (3 ∷ 7 ∷ 8 ∷ []) ∷ (2 ∷ 0 ∷ 1 ∷ []) ∷ (2 ∷ 7 ∷ 4 ∷ []) ∷ []) ≡ Some (SplitVertex 2) }
{}
