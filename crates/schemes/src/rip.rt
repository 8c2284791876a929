// Rip maps: levels that halve each side by itself, y levels outside and x levels inside.
ghost use Rattle.std.specs.Prelude.{◌≡◌, ◌≤◌};
ghost use Rattle.numbers.specs.Counts.{levels_of};
ghost use Rattle.schemes.specs.Levels.{rip_levels};
ghost use Rattle.schemes.specs.Lists.{rip_ends, rip_levels_lawful};

use crate::level::Level;
use crate::levels::{Halving, Levels};
use crate::side::Side;
use crate::tiles::Tiles;
use numbers::rounding::RoundingMode;
use numbers::vec2::Vec2;

#[derive(Clone, Copy)]
pub struct RipLevels {
    pub size: Vec2<Side>,
    pub rounding_mode: RoundingMode,
}

pub type Rip = Tiles<RipLevels>;

impl RipLevels {
    // How many times each side is halved, and once more for the full side.
    fn counts(&self) -> Vec2<usize>
        ensures across { result.0 ≡ levels_of self.now.rounding_mode self.now.size.0.pixels }
        ensures down { result.1 ≡ levels_of self.now.rounding_mode self.now.size.1.pixels }
        ensures some { 1 ≤ result.0 }
        ensures few { result.0 ≤ 32 }
        ensures low { result.1 ≤ 32 }
    {
        Vec2(
            self.size.0.level_count(self.rounding_mode),
            self.size.1.level_count(self.rounding_mode),
        )
    }
}

impl Levels for RipLevels {
    ghost list = { λ s. rip_levels s.rounding_mode s.size.0.pixels s.size.1.pixels };

    ghost lawful = { λ s. rip_levels_lawful _ _ _ s.size.0.ranged s.size.1.ranged };

    fn count(&self) -> usize {
        let Vec2(across, down) = self.counts();
        down * across
    }

    fn level(&self, position: usize) -> Option<Level> {
        let Vec2(across, down) = self.counts();
        let pair = Vec2(position % across, position / across);
        if pair.1 < down {
            Some(Level::halved(self.size, self.rounding_mode, pair))
        } else {
            None
        }
    }

    fn position(&self, pair: Vec2<usize>) -> Option<usize> {
        let Vec2(across, down) = self.counts();
        if pair.0 < across && pair.1 < down {
            Some(pair.1 * across + pair.0)
        } else {
            None
        }
    }
}

impl Halving for RipLevels {
    ghost ends = { λ s. rip_ends s.rounding_mode s.size.0.pixels s.size.1.pixels };
}
