//! Laws of a level that is part of another: what the rules read at a point where the part has all faces.

ghost use Rattle.std.specs.Prelude.{◌≡◌, ℕ, List, length};
ghost use Rattle.std.specs.List.{range_with_len};
ghost use Rattle.subdiv_model.specs.Polygons.{Polygon};
ghost use Rattle.subdiv_model.specs.Rule.{child_ring};
ghost use Rattle.subdiv_model.specs.Level.{Level, ring_at};
ghost use Rattle.subdiv_model.specs.Child.{half_sharpness};
ghost use Rattle.subdiv_model.specs.Mask.{Scheme, is_interior, rule_at, child_rule_at};
ghost use Rattle.subdiv_model.specs.Channel.{chaikin_overflows_at, transition_overflows_at};
ghost use Rattle.part_laws.specs.Parts.{IsWholeAt, renamed};
ghost use Rattle.part_laws.specs.Laws.{name_of};
ghost use Rattle.part_laws.specs.LevelParts.{IsLevelPart, LevelPart, PartOfPart, WholePointOf, EdgeOf, IsWholeIn, weight_at, last_name, last_faces};

/// If a part has all faces at a point, its edges there have the sharpness of the whole, in the same order. The law holds in the
/// level and in the next.
pub fn rings_at_whole_points_are_the_same()
    ensures now { (part : LevelPart) (at : WholePointOf part) → ring_at part.level at.point ≡ ring_at part.whole (name_of at) }
    ensures next { (part : LevelPart) (at : WholePointOf part)
        → child_ring part.level.method (ring_at part.level at.point) ≡ child_ring part.whole.method (ring_at part.whole (name_of at)) }
{}

/// If a part has all faces at a point, the point has the rules and the weight of transition that it has in the whole. It is
/// interior in both levels or in neither.
pub fn rules_at_whole_points_are_the_same()
    ensures now { (part : LevelPart) (at : WholePointOf part) → rule_at part.level at.point ≡ rule_at part.whole (name_of at) }
    ensures next { (part : LevelPart) (at : WholePointOf part)
        → child_rule_at part.level at.point ≡ child_rule_at part.whole (name_of at) }
    ensures weight { (part : LevelPart) (at : WholePointOf part)
        → weight_at part.level at.point ≡ weight_at part.whole (name_of at) }
    ensures interior { (part : LevelPart) (at : WholePointOf part)
        → is_interior part.level at.point ≡ is_interior part.whole (name_of at) }
{}

/// If a part has all faces at a point, the half of an edge there is as sharp as in the whole, by both methods.
pub fn halves_at_whole_points_are_the_same()
    ensures { (part : LevelPart) (at : WholePointOf part) (along : EdgeOf part)
        → half_sharpness part.level along.edge at.point ≡ half_sharpness part.whole (renamed part.name along.edge) (name_of at) }
{}

/// If a part has all faces at a point, halves of edges overflow there exactly if they do in the whole. So does the weight of the
/// transition.
pub fn overflows_at_whole_points_are_the_same()
    ensures chaikin { (part : LevelPart) (at : WholePointOf part)
        → chaikin_overflows_at part.level at.point ≡ chaikin_overflows_at part.whole (name_of at) }
    ensures transition { (part : LevelPart) (at : WholePointOf part) (scheme : Scheme)
        → transition_overflows_at part.level scheme at.point ≡ transition_overflows_at part.whole scheme (name_of at) }
{}

/// A level is a part of itself, and has all faces at each point.
pub fn levels_are_parts_of_themselves()
    ensures part { (level : Level) → IsLevelPart (λ p. p) (range_with_len 0 (length level.polygons)) level level }
    ensures whole { (polygons : List Polygon) (v : ℕ) → IsWholeAt (range_with_len 0 (length polygons)) polygons v }
{}

/// A part of a part is a part of the whole. It has all faces at a point where both parts have all.
pub fn parts_of_parts_are_parts()
    ensures part { (both : PartOfPart) → IsLevelPart (last_name both) (last_faces both) both.part.level both.whole }
    ensures whole { (both : PartOfPart) (at : WholePointOf both.part)
        → IsWholeIn both both.faces at.point → IsWholeIn both (last_faces both) at.point }
{}
