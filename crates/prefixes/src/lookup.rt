// Blocks found by their coordinates.
ghost use Rattle.std.specs.Prelude.{◌≡◌, ◌-ℤ◌};
ghost use Rattle.numbers.specs.Pairs.{natural};
ghost use Rattle.numbers.specs.Refusals.{outcome};
ghost use Rattle.prefixes.specs.Laws.{BlocksKnown};
ghost use Rattle.prefixes.specs.Lookup.{looked_up};
ghost use Rattle.prefixes.specs.Searching.{line_search, search_for, tile_search};

use crate::coordinates::BlockCoordinates;
use crate::positioned::Positioned;
use blocks::numbering::number_of_block;
use blocks::tile::TileCoordinates;
use numbers::refusal::{Module, Reason, Refusal};
use numbers::vec2::Vec2;
use schemes::level::Naming;
use schemes::scheme::Scheme;

// How far a line lies below the top. 64 bits hold every difference of two lines.
fn distance(y: i32, top: i32) -> Option<usize>
    ensures { result ≡ natural (y -ℤ top) }
{
    if y >= top {
        Some((i64::from(y) - i64::from(top)) as usize)
    } else {
        None
    }
}

impl<S: Scheme> Positioned<S> {
    // The block that begins with the line.
    fn find_line(&self, y: i32) -> Option<usize>
        ensures { result ≡ line_search (S.Scheme.meaning self.now.scheme) self.now.position.1 y }
    {
        match self.scheme.naming() {
            Naming::Tile => None,
            Naming::Line => {
                let rows = distance(y, self.position.1)?;
                let lines = self.scheme.block_size().1.pixels;
                if rows % lines == 0 {
                    number_of_block(&self.scheme, 0, rows / lines, 0).ok()
                } else {
                    None
                }
            }
        }
    }

    fn find_tile(&self, tile: TileCoordinates<i32>) -> Option<usize>
        ensures { result ≡ tile_search (S.Scheme.meaning self.now.scheme) tile }
    {
        match self.scheme.naming() {
            Naming::Line => None,
            Naming::Tile => {
                let tile = TileCoordinates::<usize>::try_from(tile).ok()?;
                let position = self.scheme.position(tile.level_index)?;
                let Vec2(column, row) = tile.tile_index;
                number_of_block(&self.scheme, position, row, column).ok()
            }
        }
    }

    fn find(&self, coordinates: BlockCoordinates) -> Option<usize>
        ensures { result ≡ search_for (S.Scheme.meaning self.now.scheme) self.now.position coordinates }
    {
        match coordinates {
            BlockCoordinates::Line { y } => self.find_line(y),
            BlockCoordinates::Tile(tile) => self.find_tile(tile),
        }
    }

    // The block that has the coordinates. The law says that every block of the scheme is known.
    pub fn lookup(&self, coordinates: BlockCoordinates) -> Result<usize, Refusal>
        ensures answer { outcome result ≡ looked_up (S.Scheme.meaning self.now.scheme) self.now.position coordinates }
        ensures law { BlocksKnown (S.Scheme.meaning self.now.scheme) self.now.position }
    {
        self.find(coordinates)
            .ok_or(Refusal::new(Reason::NoBlockThere, Module::Prefixes))
    }
}
