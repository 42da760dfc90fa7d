//! Laws of the next level of a part: its faces, points and sharpness are those of the next level of the whole.

ghost use Rattle.std.specs.Prelude.{◌≡◌, ℕ, ◌<◌, length, IsTrue};
ghost use Rattle.subdiv_model.specs.Polygons.{has_corner};
ghost use Rattle.subdiv_model.specs.Child.{child_level};
ghost use Rattle.level_laws.specs.Children.{Corner, child_place, face_point_of, edge_point_of};
ghost use Rattle.part_laws.specs.Parts.{IsPart, IsWholeAt, renamed, face_in};
ghost use Rattle.part_laws.specs.LevelParts.{IsLevelPart, LevelPart, EdgeOf};
ghost use Rattle.part_laws.specs.Children.{IsOverPoints, NextPart, child_in_whole, name_next, faces_next, name_in_whole, faces_in_whole};
ghost use Rattle.part_laws.specs.Values.{NextPoint, HasNextPoint, WholeChild, number_of, corners_of};

/// A point of the part keeps its name in the next level. The new point of a face, or of an edge, gets the name of the new point
/// of that face or edge in the whole.
pub fn new_points_have_names_of_new_points()
    ensures old { (part : LevelPart) (p : ℕ) → p < part.level.point_count → name_next part p ≡ part.name p }
    ensures of_faces { (part : LevelPart) (k : ℕ) → k < length part.level.polygons
        → name_next part (face_point_of part.level k) ≡ face_point_of part.whole (face_in part.faces k) }
    ensures of_edges { (part : LevelPart) (along : EdgeOf part)
        → name_next part (edge_point_of part.level along.edge) ≡ edge_point_of part.whole (renamed part.name along.edge) }
{}

/// The child faces of a part are child faces of the whole, in the same order. The child of a face at a corner is the child of
/// that face in the whole, at the corner in the same place.
pub fn child_faces_of_parts_are_a_part()
    ensures part { (part : LevelPart) → IsOverPoints part
        → IsPart (name_next part) (faces_next part) (child_level part.level).polygons (child_level part.whole).polygons }
    ensures places { (part : LevelPart) (corner : Corner part.level.polygons)
        → face_in (faces_next part) (child_place corner) ≡ child_in_whole part corner }
{}

/// The next level of a part has all faces at three kinds of points. They are points where the part has all faces, new points of
/// its faces, and new points of edges along which it has all faces.
pub fn points_stay_whole()
    ensures { (part : LevelPart) (x : NextPoint part) → IsOverPoints part
        → IsWholeAt (faces_next part) (child_level part.whole).polygons (name_next part (number_of x)) }
{}

/// If a part has all faces at a point, its next level has all faces at each corner of the child faces there.
pub fn corners_of_whole_children_are_next_points()
    ensures { (part : LevelPart) (child : WholeChild part) (n : ℕ) → IsOverPoints part → IsTrue (has_corner n (corners_of child))
        → HasNextPoint part n }
{}

/// A part of the next level of a part is a part of the next level of the whole, with its marks and its sharpness.
///
/// Under the method `normal` this holds of every part. Under `chaikin` each of its faces must be a child at a point where the first
/// part has all faces.
pub fn parts_of_next_levels_are_parts()
    ensures { (part : LevelPart) (next : NextPart part) → IsOverPoints part
        → IsLevelPart (name_in_whole next) (faces_in_whole next) next.level (child_level part.whole) }
{}
