// Mip maps: levels that halve both sides together.
ghost use Rattle.schemes.specs.Levels.{mip_levels};
ghost use Rattle.schemes.specs.Lists.{mip_ends, mip_levels_lawful};

use crate::level::Level;
use crate::levels::{Halving, Levels};
use crate::side::Side;
use crate::tiles::Tiles;
use numbers::rounding::RoundingMode;
use numbers::vec2::Vec2;

#[derive(Clone, Copy)]
pub struct MipLevels {
    pub size: Vec2<Side>,
    pub rounding_mode: RoundingMode,
}

pub type Mip = Tiles<MipLevels>;

impl Levels for MipLevels {
    ghost list = { λ s. mip_levels s.rounding_mode s.size.0.pixels s.size.1.pixels };

    ghost lawful = { λ s. mip_levels_lawful _ _ _ s.size.0.ranged s.size.1.ranged };

    // As many levels as the longer side needs to shrink to one pixel.
    fn count(&self) -> usize {
        let longer = self.size.0.longer(self.size.1);
        longer.level_count(self.rounding_mode)
    }

    fn level(&self, position: usize) -> Option<Level> {
        if position < self.count() {
            let pair = Vec2(position, position);
            Some(Level::halved(self.size, self.rounding_mode, pair))
        } else {
            None
        }
    }

    fn position(&self, pair: Vec2<usize>) -> Option<usize> {
        if pair.0 == pair.1 && pair.0 < self.count() {
            Some(pair.0)
        } else {
            None
        }
    }
}

impl Halving for MipLevels {
    ghost ends = { λ s. mip_ends s.rounding_mode s.size.0.pixels s.size.1.pixels };
}
