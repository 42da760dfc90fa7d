//! Laws of a child, each for all levels and parents.

ghost use Rattle.std.specs.Prelude.{◌≡◌, ℕ, ◌<◌, length, Some};
ghost use Rattle.level_topology.specs.Topology.{IsTopology};
ghost use Rattle.level_topology.specs.Child.{PointOrigin, corner_origins, point_from, face_from};
ghost use Rattle.level_topology.specs.ChildLaws.{ParentAndChild, face_count, face_corners, face_origins, present_corners, point_origin, face_place, points_from_corner};

/// A point's origin and the point that comes from a part of the parent are inverse to each other.
pub fn points_have_their_origins()
    ensures origin { (pair : ParentAndChild) (origin : PointOrigin) (p : ℕ) → point_from pair.child origin ≡ Some p → point_origin pair.child p ≡ origin }
    ensures exists { (pair : ParentAndChild) (origin : PointOrigin) (p : ℕ) → point_from pair.child origin ≡ Some p
        → p < pair.child.topology.level.point_count }
    ensures point { (pair : ParentAndChild) (p : ℕ) → p < pair.child.topology.level.point_count
        → point_from pair.child (point_origin pair.child p) ≡ Some p }
{}

/// Each face of a child has exactly one place, and the face that comes from that place is this face.
pub fn faces_have_their_places()
    ensures place { (pair : ParentAndChild) (place : ℕ × ℕ) (f : ℕ) → face_from pair.child place ≡ Some f → face_place pair.child f ≡ place }
    ensures exists { (pair : ParentAndChild) (place : ℕ × ℕ) (f : ℕ) → face_from pair.child place ≡ Some f → f < face_count pair.child }
    ensures face { (pair : ParentAndChild) (f : ℕ) → f < face_count pair.child → face_from pair.child (face_place pair.child f) ≡ Some f }
{}

/// Each face of a child is a quad. Its corners are the points that come from the parent corner, the edge after it, the face, and the edge
/// before it.
pub fn corners_come_from_their_places()
    ensures origins { (pair : ParentAndChild) (f : ℕ) → f < face_count pair.child
        → face_origins pair.child f ≡ corner_origins pair.parent.level.polygons (face_place pair.child f) }
    ensures quad { (pair : ParentAndChild) (f : ℕ) → f < face_count pair.child → length (face_corners pair.child f) ≡ 4 }
    ensures points { (pair : ParentAndChild) (place : ℕ × ℕ) (f : ℕ) → IsTopology pair.child.topology → face_from pair.child place ≡ Some f
        → points_from_corner pair place ≡ present_corners pair.child f }
{}
