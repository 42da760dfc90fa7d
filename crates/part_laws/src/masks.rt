//! Laws of masks of a part: they have the weights of the whole in the same order, and its sources.

ghost use Rattle.std.specs.Prelude.{◌≡◌, ℕ, ◌<◌, length};
ghost use Rattle.subdiv_model.specs.Mask.{Scheme, face_mask, edge_mask, vertex_mask};
ghost use Rattle.part_laws.specs.Parts.{face_in};
ghost use Rattle.part_laws.specs.Laws.{name_of, edge_in};
ghost use Rattle.part_laws.specs.LevelParts.{LevelPart, WholePointOf, WholeEdgeOf};
ghost use Rattle.part_laws.specs.Masks.{mask_in};

/// The mask of each face of a part is the mask of that face in the whole.
pub fn face_masks_are_the_same()
    ensures { (part : LevelPart) (k : ℕ) → k < length part.level.polygons
        → face_mask part.whole (face_in part.faces k) ≡ mask_in part.name part.faces (face_mask part.level k) }
{}

/// If a part has all faces along an edge, the mask of the edge is its mask in the whole, under both schemes.
pub fn masks_of_whole_edges_are_the_same()
    ensures { (part : LevelPart) (scheme : Scheme) (along : WholeEdgeOf part)
        → edge_mask part.whole scheme (edge_in along) ≡ mask_in part.name part.faces (edge_mask part.level scheme along.edge) }
{}

/// If a part has all faces at a point, the mask of the point is its mask in the whole, under both schemes.
pub fn masks_of_whole_points_are_the_same()
    ensures { (part : LevelPart) (scheme : Scheme) (at : WholePointOf part)
        → vertex_mask part.whole scheme (name_of at) ≡ mask_in part.name part.faces (vertex_mask part.level scheme at.point) }
{}
