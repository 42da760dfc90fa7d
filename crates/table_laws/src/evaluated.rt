//! The law of the table of a level: it gives the points that the control points are refined to.

ghost use Rattle.std.specs.Prelude.{◌≡◌, None};
ghost use Rattle.std.specs.List.{flat_map};
ghost use Rattle.subdiv_model.specs.Text.{point_line};
ghost use Rattle.table_laws.specs.Evaluated.{LevelOverControls, evaluated_points, points_after_steps};

/// The table of a level, if it is within its limits, gives the `v` lines of the points that the control points are refined to.
pub fn evaluated_tables_are_refined_points()
    ensures { (given : LevelOverControls) → flat_map (point_line None) (evaluated_points given) ≡ flat_map (point_line None) (points_after_steps given) }
{}
