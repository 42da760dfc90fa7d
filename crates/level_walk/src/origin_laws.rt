//! Laws of origins. Each holds for all levels.

ghost use Rattle.std.specs.Prelude.{◌≡◌, ℕ, ◌<◌, get_or, IsTrue};
ghost use Rattle.subdiv_model.specs.Polygons.{is_over};
ghost use Rattle.subdiv_model.specs.Level.{Level};
ghost use Rattle.subdiv_model.specs.Child.{refined_level};
ghost use Rattle.level_walk.specs.Origins.{OnPoint, origins_to};
ghost use Rattle.level_walk.specs.ChildOrigins.{AreOrigins};
ghost use Rattle.level_walk.specs.OriginLaws.{AreParts};

/// Each point, edge and face of a level has an origin. If the faces of level 0 name only its points, each origin is a part of
/// level 0.
pub fn levels_lie_on_level_0()
    ensures each { (base : Level) (k : ℕ) → AreOrigins (refined_level base k) (origins_to base k) }
    ensures parts { (base : Level) (k : ℕ) → IsTrue (is_over base.point_count base.polygons) → AreParts base (origins_to base k) }
{}

/// A point of level 0 keeps its number at each level, and is its own origin.
pub fn points_of_level_0_stay()
    ensures { (base : Level) (k v : ℕ) → v < base.point_count → get_or (origins_to base k).points v (OnPoint 0) ≡ OnPoint v }
{}
