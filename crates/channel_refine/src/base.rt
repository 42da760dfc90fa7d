//! A channel before it is refined.

ghost use Rattle.std.specs.Prelude.{◌≡◌, ◌≤◌, max};
ghost use Rattle.subdiv_model.specs.Channel.{number_bound};
ghost use Rattle.mask_rules.specs.View.{scheme_of};
ghost use Rattle.channel_refine.specs.Base.{IsBase, channel_of};

use level_topology::Level;
use mask_rules::Scheme;
use std::marker::Model;

/// A channel before refinement: level 0, the scheme, the greatest amount of its control numbers, and their common denominator. The values
/// of the channel do not contain that denominator; it only bounds numbers.
#[derive(Drop)]
pub struct BaseChannel {
    level: Level,
    scheme: Scheme,
    greatest: u128,
    common: u128,
}

impl Model for BaseChannel {
    ghost use Rattle.subdiv_model.specs.Channel.{Channel};
    ghost use Rattle.mask_rules.specs.View.{scheme_of};
    ghost use Rattle.channel_refine.specs.Base.{IsBaseOf, channel_of};

    ghost Value = { Channel };

    ghost view = { λ c. channel_of c.level.level (scheme_of c.scheme) c.greatest c.common };

    ghost invariant = { λ c. IsBaseOf c.level c.greatest c.common };
}

impl BaseChannel {
    /// Returns the channel of a level 0. `greatest` is the greatest amount of a control number, `common` the denominator of all of them.
    /// Both are at most 2^126 - 1. The level is a manifold of at most 2^27 points. Each point is complete, and each edge of one face is
    /// infinitely sharp.
    pub fn new(level: Level, scheme: Scheme, greatest: u128, common: u128) -> BaseChannel
        requires base { IsBase level }
        requires short { max greatest common ≤ number_bound }
        ensures { result ≡ channel_of level.level (scheme_of scheme) greatest common }
    {
        BaseChannel {
            level,
            scheme,
            greatest,
            common,
        }
    }

    /// States to a proof that the greatest control number and the common denominator are at most 2^126 - 1; at run time it does nothing.
    pub fn facts(&self)
        ensures { max self.now.greatest self.now.common ≤ number_bound }
    {
        let _ = &self.level;
    }

    /// Returns the scheme.
    pub fn scheme(&self) -> Scheme
        ensures { scheme_of result ≡ self.now.scheme }
    {
        self.scheme
    }

    /// Returns the greater of the greatest control number and the denominator.
    pub fn most(&self) -> u128
        ensures { result ≡ max self.now.greatest self.now.common }
    {
        self.greatest.max(self.common)
    }

    /// Returns level 0.
    pub fn level(&self) -> &Level
        ensures { result.now.level ≡ self.now.base }
    {
        &self.level
    }

    /// Returns level 0 and drops the rest.
    pub fn into_level(self) -> Level
        ensures base { IsBase result }
        ensures level { result.level ≡ self.base }
    {
        self.level
    }
}
