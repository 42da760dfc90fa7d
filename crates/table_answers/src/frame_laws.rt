//! Laws: the points that the answers of `go` name.
//!
//! Each public function here takes nothing, does nothing and returns nothing: its clauses are the laws.

ghost use Rattle.std.specs.Prelude.{◌≡◌, ℕ, List, [], ◌∷◌, ◌++◌, true};
ghost use Rattle.std.specs.List.{list_any};
ghost use Rattle.subdiv_model.specs.ObjMesh.{ObjMesh};
ghost use Rattle.subdiv_model.specs.Polygons.{is_among};
ghost use Rattle.far_model.specs.Frames.{changed_points, is_go_line};
ghost use Rattle.table_answers.specs.FrameLaws.{Lines, support_at, moved_by, points_in_answers, waiting_points};

/// After control points move, exactly the points that depend on one of them are changed.
pub fn changed_points_depend_on_moved_ones()
    ensures { (depth : ℕ) (mesh : ObjMesh) (moved : List ℕ) (point : ℕ)
        → is_among (changed_points depth mesh moved) point ≡ list_any (is_among (support_at depth mesh point)) moved }
{}

/// The answers of `go` among some lines, with the answer of one more `go`, name exactly the points that depend on a moved control point.
/// Right after `go` no point waits.
pub fn answers_of_go_name_the_changed_points()
    ensures named { (depth : ℕ) (mesh : ObjMesh) (lines : Lines) (point : ℕ)
        → is_among (points_in_answers depth mesh lines) point ≡ is_among (changed_points depth mesh (moved_by lines)) point }
    ensures none { (depth : ℕ) (mesh : ObjMesh) (lines : Lines) (words : List (List ℕ)) → is_go_line words ≡ true
        → waiting_points depth mesh (lines ++ words ∷ []) ≡ [] }
{}
