// One level: that of scan lines, and of tiles that have no smaller copies.
ghost use Rattle.schemes.specs.Levels.{one_level};
ghost use Rattle.schemes.specs.Lists.{one_level_lawful};

use crate::level::Level;
use crate::levels::Levels;
use crate::side::Side;
use crate::tiles::Tiles;
use numbers::vec2::Vec2;

#[derive(Clone, Copy)]
pub struct OneLevel {
    pub size: Vec2<Side>,
}

pub type Single = Tiles<OneLevel>;

impl Levels for OneLevel {
    ghost list = { λ s. one_level s.size.0.pixels s.size.1.pixels };

    ghost lawful = { λ s. one_level_lawful _ _ s.size.0.ranged s.size.1.ranged };

    fn count(&self) -> usize {
        1
    }

    fn level(&self, position: usize) -> Option<Level> {
        if position == 0 {
            Some(Level {
                pair: Vec2(0, 0),
                width: self.size.0.pixels,
                height: self.size.1.pixels,
            })
        } else {
            None
        }
    }

    fn position(&self, pair: Vec2<usize>) -> Option<usize> {
        if pair == Vec2(0, 0) { Some(0) } else { None }
    }
}
