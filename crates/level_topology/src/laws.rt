//! Laws of a level, each for all levels.

ghost use Rattle.std.specs.Prelude.{◌≡◌, ℕ, ◌+◌, ◌<◌, ◌≤◌, true, false, List, length, get_or, IsTrue};
ghost use Rattle.std.specs.List.Sorted.{IsPermutation};
ghost use Rattle.subdiv_model.specs.Polygons.{Polygon, polygon_at, same_edge, has_edge, has_corner, is_among, is_distinct};
ghost use Rattle.subdiv_model.specs.Edges.{edges_of, edge_number, faces_of_point, has_end};
ghost use Rattle.level_topology.specs.Topology.{Topology, IsTopology, IsFan, IsFaceAt, IsEdgeAt, IsFaceOf, edge_at, faces_of_edge_at, face_edges_of, edge_numbers_at, side_at};
ghost use Rattle.level_topology.specs.Laws.{LevelPoint, face_edge_at, listed_faces, listed_edges};

/// Edge `c` of a face joins corner `c` to the next corner.
pub fn face_edges_join_corners()
    ensures exists { (polygons : List Polygon) (f c : ℕ) → c < length (polygon_at polygons f)
        → face_edge_at polygons f c < length (edges_of polygons) }
    ensures joins { (polygons : List Polygon) (f c : ℕ) → c < length (polygon_at polygons f)
        → IsTrue (same_edge (side_at (polygon_at polygons f) c) (edge_at polygons (face_edge_at polygons f c))) }
    ensures as_many { (polygons : List Polygon) (f : ℕ) → length (face_edges_of polygons (polygon_at polygons f)) ≡ length (polygon_at polygons f) }
{}

/// The list of faces at a point contains each face with that corner exactly once, and no other face.
pub fn faces_stand_at_their_corners()
    ensures each { (v : LevelPoint) (i : ℕ) → i < length (listed_faces v)
        → IsFaceAt v.topology.level.polygons v.number (get_or (listed_faces v) i 0) }
    ensures all { (v : LevelPoint) (f : ℕ) → is_among (listed_faces v) f ≡ has_corner v.number (polygon_at v.topology.level.polygons f) }
    ensures once { (v : LevelPoint) → IsTrue (is_distinct (listed_faces v)) }
{}

/// The list of edges at a point contains each edge with that end exactly once, and no other edge.
pub fn edges_stand_at_their_ends()
    ensures each { (v : LevelPoint) (i : ℕ) → i < length (listed_edges v)
        → IsEdgeAt v.topology.level.polygons v.number (get_or (listed_edges v) i 0) }
    ensures all { (v : LevelPoint) (e : ℕ) → e < length (edges_of v.topology.level.polygons)
        → IsTrue (has_end v.number (edge_at v.topology.level.polygons e)) → IsTrue (is_among (listed_edges v) e) }
    ensures once { (v : LevelPoint) → IsTrue (is_distinct (listed_edges v)) }
{}

/// Each edge has its own number, in either direction.
pub fn edges_have_their_numbers()
    ensures own { (polygons : List Polygon) (e : ℕ) → e < length (edges_of polygons) → edge_number polygons (edge_at polygons e) ≡ e }
    ensures either_direction { (polygons : List Polygon) (e : ℕ) (pair : ℕ × ℕ) → e < length (edges_of polygons)
        → IsTrue (same_edge pair (edge_at polygons e)) → edge_number polygons pair ≡ e }
{}

/// An edge has one face or two, the lower number first, and no other face contains it.
pub fn edges_have_one_face_or_two()
    ensures some { (t : Topology) (e : ℕ) → IsTopology t → e < length (edges_of t.level.polygons)
        → 1 ≤ length (faces_of_edge_at t.level.polygons e) }
    ensures few { (t : Topology) (e : ℕ) → IsTopology t → e < length (edges_of t.level.polygons)
        → length (faces_of_edge_at t.level.polygons e) ≤ 2 }
    ensures each { (polygons : List Polygon) (e i : ℕ) → i < length (faces_of_edge_at polygons e)
        → IsFaceOf polygons e (get_or (faces_of_edge_at polygons e) i 0) }
    ensures all { (polygons : List Polygon) (e f : ℕ) → is_among (faces_of_edge_at polygons e) f ≡ has_edge (edge_at polygons e) (polygon_at polygons f) }
    ensures order { (polygons : List Polygon) (e i : ℕ) → i + 1 < length (faces_of_edge_at polygons e)
        → get_or (faces_of_edge_at polygons e) i 0 < get_or (faces_of_edge_at polygons e) (i + 1) 0 }
{}

/// The lists at a point are permutations of its faces and its edges. At a complete point they are in fan order, and at any other point they
/// ascend. In fan order the faces form one cycle or one path, and the edges are as many or one more. Edge `i` enters the point in face `i`.
pub fn complete_points_have_fans()
    ensures faces { (v : LevelPoint) → IsPermutation (faces_of_point v.topology.level.polygons v.number) (listed_faces v) }
    ensures edges { (v : LevelPoint) → IsPermutation (edge_numbers_at v.topology.level.polygons v.number) (listed_edges v) }
    ensures fan { (v : LevelPoint) → get_or v.topology.complete v.number false ≡ true
        → IsFan v.topology.level.polygons v.number (listed_faces v) (listed_edges v) }
    ensures other_faces { (v : LevelPoint) → get_or v.topology.complete v.number false ≡ false
        → listed_faces v ≡ faces_of_point v.topology.level.polygons v.number }
    ensures other_edges { (v : LevelPoint) → get_or v.topology.complete v.number false ≡ false
        → listed_edges v ≡ edge_numbers_at v.topology.level.polygons v.number }
{}
