//! Laws of edges, of manifolds and of the topology of their child levels.

ghost use Rattle.std.specs.Prelude.{◌≡◌, ℕ, ◌<◌, List, length, None, IsTrue, ◌↔◌};
ghost use Rattle.std.specs.List.{All, count_by, list_any};
ghost use Rattle.subdiv_model.specs.Polygons.{Polygon, same_side, same_edge, is_distinct, is_over};
ghost use Rattle.subdiv_model.specs.Edges.{all_sides, edges_of, is_closed, goes_both_ways};
ghost use Rattle.subdiv_model.specs.Manifold.{IsManifold, is_manifold};
ghost use Rattle.subdiv_model.specs.MeshFault.{first_mesh_fault};
ghost use Rattle.subdiv_model.specs.Level.{Level};
ghost use Rattle.subdiv_model.specs.Child.{child_polygons, child_points, refined_level};
ghost use Rattle.mesh_laws.specs.Edges.{HasOneOrTwoFaces};
ghost use Rattle.mesh_laws.specs.Manifolds.{IsManifoldOver, IsClosedManifold};

/// The test `is_manifold` accepts exactly the manifolds: its walk around a point visits all faces exactly where they form one
/// fan.
pub fn manifold_test_decides()
    ensures { (points : ℕ) (polygons : List Polygon) → IsTrue (is_manifold points polygons) ↔ IsManifold points polygons }
{}

/// A mesh has no fault exactly where it is a manifold.
pub fn no_fault_exactly_at_a_manifold()
    ensures { (points : ℕ) (polygons : List Polygon) → (first_mesh_fault points polygons ≡ None) ↔ IsTrue (is_manifold points polygons) }
{}

/// In a manifold each edge has one or two faces.
pub fn edges_have_one_or_two_faces()
    ensures { (points : ℕ) (polygons : List Polygon) → IsManifold points polygons → All (HasOneOrTwoFaces polygons) (edges_of polygons) }
{}

/// The list of edges contains the edge of each directed edge once, in the direction that one of its faces has.
pub fn edges_are_listed_once()
    ensures once { (polygons : List Polygon) → All (λ side. count_by (same_edge side) (edges_of polygons) ≡ 1) (all_sides polygons) }
    ensures as_it_goes { (polygons : List Polygon) → All (λ edge. IsTrue (list_any (same_side edge) (all_sides polygons))) (edges_of polygons) }
{}

/// In a closed manifold each directed edge occurs once, and its opposite occurs once.
pub fn closed_manifold_goes_both_ways()
    ensures { (points : ℕ) (polygons : List Polygon) → IsManifold points polygons → IsTrue (is_closed polygons) → IsTrue (goes_both_ways polygons) }
{}

/// Each child face of a manifold has four distinct corners, and each corner is a point of the child level.
pub fn child_faces_are_quads()
    ensures four { (points : ℕ) (polygons : List Polygon) → IsManifoldOver points polygons
        → All (λ quad. length quad ≡ 4) (child_polygons points polygons) }
    ensures distinct { (points : ℕ) (polygons : List Polygon) → IsManifoldOver points polygons
        → All (λ quad. IsTrue (is_distinct quad)) (child_polygons points polygons) }
    ensures points { (points : ℕ) (polygons : List Polygon) → IsManifoldOver points polygons
        → All (λ quad. All (λ v. v < child_points points polygons) quad) (child_polygons points polygons) }
{}

/// The child level of a manifold is a manifold, at its boundary too. Its faces are simple, each directed edge occurs at most
/// once, and the faces at each point form one fan.
pub fn child_of_a_manifold()
    ensures { (points : ℕ) (polygons : List Polygon) → IsManifoldOver points polygons
        → IsManifold (child_points points polygons) (child_polygons points polygons) }
{}

/// If the corners of a level are points, the corners of every later level are points. Every level of a manifold is a manifold.
pub fn levels_of_a_manifold()
    ensures over { (level : Level) (k : ℕ) → IsTrue (is_over level.point_count level.polygons)
        → IsTrue (is_over (refined_level level k).point_count (refined_level level k).polygons) }
    ensures manifold { (level : Level) (k : ℕ) → IsManifoldOver level.point_count level.polygons
        → IsManifold (refined_level level k).point_count (refined_level level k).polygons }
{}

/// The child level of a closed manifold is closed: each edge has exactly two faces, and each directed edge and its opposite occur
/// once.
pub fn child_of_a_closed_manifold()
    ensures closed { (points : ℕ) (polygons : List Polygon) → IsClosedManifold points polygons
        → IsTrue (is_closed (child_polygons points polygons)) }
    ensures both_ways { (points : ℕ) (polygons : List Polygon) → IsClosedManifold points polygons
        → IsTrue (goes_both_ways (child_polygons points polygons)) }
{}

/// Every level of a closed manifold is closed: its corners are points, and each edge occurs once in each direction.
pub fn levels_of_a_closed_manifold()
    ensures over { (level : Level) (k : ℕ) → IsClosedManifold level.point_count level.polygons
        → IsTrue (is_over (refined_level level k).point_count (refined_level level k).polygons) }
    ensures closed { (level : Level) (k : ℕ) → IsClosedManifold level.point_count level.polygons
        → IsTrue (is_closed (refined_level level k).polygons) }
    ensures both_ways { (level : Level) (k : ℕ) → IsClosedManifold level.point_count level.polygons
        → IsTrue (goes_both_ways (refined_level level k).polygons) }
{}
