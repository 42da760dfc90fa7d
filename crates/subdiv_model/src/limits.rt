//! Examples of limit points, each proved by computing.

ghost use Rattle.std.specs.Prelude.{◌≡◌, ◌^◌, true, false, [], ◌∷◌, ◌++◌, get_or, Ok, Err, codes};
ghost use Rattle.subdiv_model.specs.ExampleControls.{cube_x, square_x};
ghost use Rattle.subdiv_model.specs.Examples.{cube, square, tagged_level, two_triangles};
ghost use Rattle.subdiv_model.specs.Fault.{Dart, Limit, LimitRows, Overflow, SemiSharp, ValueOverflow};
ghost use Rattle.subdiv_model.specs.Level.{plain_level};
ghost use Rattle.subdiv_model.specs.Limit.{has_quads, limit_causes, limit_denominators_after, limit_entries_after, limit_faults, limit_mask, limit_of, opposite_corner, opposites_at};
ghost use Rattle.subdiv_model.specs.Mask.{CatmullClark, OfPoint, corner_mask, weigh, weigh_points};
ghost use Rattle.subdiv_model.specs.Sharpness.{Infinite, Semi};
ghost use Rattle.subdiv_model.specs.ExampleLimits.{limit_text};

/// The opposite corner of a quad is two corners further. The test for quads accepts the cube and refuses two triangles.
pub fn opposite_corners()
    ensures first { opposite_corner 5 (5 ∷ 6 ∷ 7 ∷ 8 ∷ []) ≡ 7 }
    ensures last { opposite_corner 8 (5 ∷ 6 ∷ 7 ∷ 8 ∷ []) ≡ 6 }
    ensures cube { opposites_at (plain_level 8 cube) 3 ≡ 0 ∷ 4 ∷ 7 ∷ [] }
    ensures quads { has_quads (plain_level 8 cube) ≡ true }
    ensures triangles { has_quads (plain_level 3 two_triangles) ≡ false }
{}

/// A smooth corner of the cube has the same limit point at each level.
pub fn smooth_limit_of_the_cube()
    ensures mask { limit_mask (plain_level 8 cube) 3 ≡ record { terms = weigh 9 (OfPoint 3) ∷ weigh_points 4 (1 ∷ 2 ∷ 5 ∷ []) ++ weigh_points 1 (0 ∷ 4 ∷ 7 ∷ []); denominator = 24 } }
    ensures here { limit_text (plain_level 8 cube) cube_x 0 3 ≡ codes "1/2" }
    ensures next { limit_text (plain_level 8 cube) cube_x 1 3 ≡ codes "1/2" }
    ensures next_but_one { limit_text (plain_level 8 cube) cube_x 2 3 ≡ codes "1/2" }
    ensures denominators { get_or (limit_denominators_after (record { base = plain_level 8 cube; scheme = CatmullClark; greatest = 1; common = 1 }) 1) 3 0 ≡ 3456 }
    ensures entries { limit_entries_after (record { base = plain_level 8 cube; scheme = CatmullClark; greatest = 1; common = 1 }) 0 ≡ 56 }
{}

/// The square is only a boundary curve: each point of level 0 is on a crease. With sharp corners each point stays where it is.
pub fn limits_on_the_boundary()
    ensures crease { limit_text (tagged_level 4 square [] []) square_x 0 0 ≡ codes "2/3" }
    ensures next { limit_text (tagged_level 4 square [] []) square_x 1 0 ≡ codes "2/3" }
    ensures corner { limit_of (tagged_level 4 square [] ((0, Infinite) ∷ [])) 0 ≡ Ok (corner_mask 0) }
    ensures point { limit_of (plain_level 1 []) 0 ≡ Ok (corner_mask 0) }
{}

/// A dart and a semi-sharp point have no limit mask. A point with enough infinitely sharp edges stays where it is, whatever else
/// is semi-sharp.
pub fn points_without_limits()
    ensures darts { limit_causes (tagged_level 8 cube (((0, 1), Infinite) ∷ []) []) ≡ Dart 0 ∷ Dart 1 ∷ [] }
    ensures semi { limit_causes (tagged_level 8 cube (((0, 1), Semi 5 1) ∷ []) []) ≡ SemiSharp 0 ∷ SemiSharp 1 ∷ [] }
    ensures vertex { limit_causes (tagged_level 8 cube [] ((3, Semi 1 2) ∷ [])) ≡ SemiSharp 3 ∷ [] }
    ensures both { limit_of (tagged_level 8 cube (((0, 1), Infinite) ∷ ((1, 3), Semi 1 1) ∷ []) []) 1 ≡ Err (SemiSharp 1) }
    ensures corner { limit_of (tagged_level 8 cube (((1, 3), Semi 1 1) ∷ []) ((3, Infinite) ∷ [])) 3 ≡ Ok (corner_mask 3) }
    ensures itself { limit_mask (tagged_level 8 cube [] ((3, Semi 1 2) ∷ [])) 3 ≡ corner_mask 3 }
{}

/// Limit points of the cube within their bounds and past them, and one that is refused before its numbers are judged.
pub fn limits_past_their_bounds()
    ensures fine { limit_faults (record { base = plain_level 8 cube; scheme = CatmullClark; greatest = 1; common = 1 }) 1 ≡ [] }
    ensures value { limit_faults (record { base = plain_level 8 cube; scheme = CatmullClark; greatest = 2 ^ 120; common = 1 }) 1 ≡ Overflow LimitRows 1 ValueOverflow ∷ [] }
    ensures refused { limit_faults (record { base = tagged_level 8 cube [] ((3, Semi 3 2) ∷ []); scheme = CatmullClark; greatest = 1; common = 1 }) 1 ≡ Limit (SemiSharp 3) ∷ [] }
{}
