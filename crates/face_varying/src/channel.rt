//! A texture channel at level 0.

ghost use Rattle.std.specs.Prelude.{◌≡◌};

use level_topology::Level;
use ratio128::Point2;
use std::marker::Model;

/// Level 0 of the cut mesh of a texture channel, and the texture value of each of its points. The values are whole numbers
/// over the channel's common denominator.
#[derive(Drop)]
pub struct Channel {
    level: Level,
    points: Vec<Point2>,
}

impl Model for Channel {
    ghost use Rattle.face_varying.specs.Cut.{CutChannel};

    ghost Value = { CutChannel };

    ghost view = { λ c. record { level = c.level; points = c.points.items } };
}

impl Channel {
    // Returns a channel of a level and the values of its points.
    pub(crate) fn new(level: Level, points: Vec<Point2>) -> Channel
        ensures level { result.level ≡ level }
        ensures points { result.points ≡ points.items }
    {
        Channel { level, points }
    }

    /// Returns level 0 of the cut mesh.
    pub fn level(&self) -> &Level
        ensures { result.now ≡ self.now.level }
    {
        &self.level
    }

    /// Returns the texture value of each point.
    pub fn points(&self) -> &[Point2]
        ensures { result.now ≡ self.now.points }
    {
        &self.points
    }

    /// Returns the level and the values. The call takes no memory.
    pub fn into_parts(self) -> (Level, Vec<Point2>)
        ensures level { result.0 ≡ self.level }
        ensures points { result.1.items ≡ self.points }
    {
        (self.level, self.points)
    }
}
