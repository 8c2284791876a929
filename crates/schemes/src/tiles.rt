// Tiles, the same size at every level.
ghost use Rattle.schemes.specs.Schemes.{in_tiles};
ghost use Rattle.schemes.specs.Tiled.{tiles_lawful};

use crate::level::{Level, Naming};
use crate::levels::{Halving, Levels};
use crate::scheme::Scheme;
use crate::shrinking::Shrinking;
use crate::side::Side;
use numbers::vec2::Vec2;

// The size stands first, so that it lies at one place whatever the levels are: nearly every question asks for it.
#[derive(Clone, Copy)]
pub struct Tiles<L> {
    pub tile_size: Vec2<Side>,
    pub levels: L,
}

impl<L: Levels> Scheme for Tiles<L> {
    ghost meaning = { λ s. in_tiles s.tile_size.0.pixels s.tile_size.1.pixels (L.list s.levels) };

    ghost lawful = { λ s. tiles_lawful _ _ _ s.tile_size.0.ranged s.tile_size.1.ranged (L.lawful s.levels) };

    fn level_count(&self) -> usize {
        self.levels.count()
    }

    fn block_size(&self) -> Vec2<Side> {
        self.tile_size
    }

    fn naming(&self) -> Naming {
        Naming::Tile
    }

    fn level(&self, position: usize) -> Option<Level> {
        self.levels.level(position)
    }

    fn position(&self, pair: Vec2<usize>) -> Option<usize> {
        self.levels.position(pair)
    }
}

impl<L: Halving> Shrinking for Tiles<L> {
    fn smallest(&self) -> usize {
        self.level_count() - 1
    }
}
