// The blocks of a layer in line order.
ghost use Rattle.std.specs.Prelude.{Some};
ghost use Rattle.block_table.specs.Answers.{tile_text};

use blocks::tile::TileIndices;
use layout::layer::Layer;
use numbers::vec2::Vec2;
use std::fmt;

// Printed all in order, and on a second line from the ends in turn: the first, the last, the second, ..
#[derive(Clone, Copy)]
pub(crate) struct BlocksInOrder(pub(crate) Layer);

impl fmt::Display for BlocksInOrder {
    fn fmt<W: fmt::Write>(&self, f: &mut fmt::Formatter<W>) -> fmt::Result {
        for (number, tile) in self.0.enumerate_ordered_blocks() {
            write!(f, "{number}:{} ", Fields(tile))?;
        }
        f.write_str("\n")?;
        let mut blocks = self.0.enumerate_ordered_blocks();
        while let Some((first, _)) = blocks.next() {
            write!(f, "{first}/{} ", blocks.len())?;
            if let Some((last, _)) = blocks.next_back() {
                write!(f, "{last}/{} ", blocks.len())?;
            }
        }
        Ok(())
    }
}

// Tile indices, the level's pair, and the size in pixels.
#[derive(Clone, Copy)]
struct Fields(TileIndices);

impl fmt::Display for Fields {
    ghost output = { λ fields. Some (tile_text fields.0) };

    fn fmt<W: fmt::Write>(&self, f: &mut fmt::Formatter<W>) -> fmt::Result {
        let Vec2(x, y) = self.0.location.tile_index;
        let Vec2(i, j) = self.0.location.level_index;
        let Vec2(w, h) = self.0.size;
        write!(f, "{x},{y},{i},{j},{w},{h}")
    }
}
