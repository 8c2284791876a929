// The pixels under a block.
ghost use Rattle.std.specs.Prelude.{◌≡◌};
ghost use Rattle.blocks.specs.Bounds.{bounds_of, tile_of};
ghost use Rattle.blocks.specs.Numbering.{IsBlock, of_block};
ghost use Rattle.blocks.specs.Pixels.{BoundsCut, PixelsOnce};
ghost use Rattle.numbers.specs.Refusals.{outcome};
ghost use Rattle.schemes.specs.Meanings.{block_size};

use crate::block::Block;
use crate::bounds::IntegerBounds;
use crate::numbering::find_block;
use crate::tile::TileCoordinates;
use numbers::refusal::Refusal;
use numbers::vec2::Vec2;
use schemes::scheme::Scheme;
use schemes::side::Side;

impl Block {
    // Column and row, and the level's pair.
    pub fn tile_coordinates(&self) -> TileCoordinates<usize>
        ensures { result ≡ tile_of self.now }
    {
        TileCoordinates {
            tile_index: Vec2(self.column, self.row),
            level_index: self.level.pair,
        }
    }
}

// The bounds of a block of the scheme.
pub(crate) fn bounds<S: Scheme>(scheme: &S, block: Block) -> IntegerBounds
    requires { IsBlock (S.Scheme.meaning scheme.now) block }
    ensures { result ≡ bounds_of (block_size (S.Scheme.meaning scheme.now)) block }
{
    let max = Vec2(block.level.width, block.level.height);
    let size = Side::pixels_of(scheme.block_size());
    let bounds = block.tile_coordinates().to_data_indices(size, max);
    bounds.unwrap()
}

// The corner, width and height in its level of the block with a number.
pub fn bounds_of_block<S: Scheme>(scheme: &S, number: usize) -> Result<IntegerBounds, Refusal>
    ensures answer { outcome result ≡ of_block (S.Scheme.meaning scheme.now) number (bounds_of (block_size (S.Scheme.meaning scheme.now))) }
    ensures cut { BoundsCut (S.Scheme.meaning scheme.now) }
    ensures once { PixelsOnce (S.Scheme.meaning scheme.now) }
{
    let block = find_block(scheme, number)?;
    Ok(bounds(scheme, block))
}
