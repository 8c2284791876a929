// How long a prefix is, and the coordinates of a block by its number.
ghost use Rattle.std.specs.Prelude.{◌≡◌, ◌≤◌, pos, negsuc, ◌+ℤ◌};
ghost use Rattle.numbers.specs.Refusals.{outcome};
ghost use Rattle.numbers.specs.Wholes.{within};
ghost use Rattle.blocks.specs.Numbering.{IsBlock};
ghost use Rattle.prefixes.specs.Bytes.{naming_of, prefix_size};
ghost use Rattle.prefixes.specs.Coordinates.{coordinates_of, coordinates_told, telling};

use crate::coordinates::BlockCoordinates;
use crate::positioned::Positioned;
use blocks::block::Block;
use blocks::numbering::find_block;
use blocks::tile::TileCoordinates;
use blocks::tile_indices::TOO_LARGE;
use numbers::refusal::Refusal;
use schemes::level::Naming;
use schemes::scheme::Scheme;

// In bytes.
pub fn prefix_size(naming: Naming) -> usize
    ensures { result ≡ prefix_size naming }
{
    match naming {
        Naming::Line => 8,
        Naming::Tile => 20,
    }
}

impl BlockCoordinates {
    // The naming that such coordinates belong to.
    pub fn naming(&self) -> Naming
        ensures { result ≡ naming_of self.now }
    {
        match self {
            BlockCoordinates::Line { .. } => Naming::Line,
            BlockCoordinates::Tile(_) => Naming::Tile,
        }
    }
}

// A line so many rows below the top, where 32 signed bits hold it.
fn line_below(top: i32, rows: usize) -> Option<i32>
    requires { rows ≤ 2147483647 }
    ensures { result ≡ within (negsuc 2147483647) (pos 2147483647) (top +ℤ pos rows) }
{
    top.checked_add(rows as i32)
}

impl<S: Scheme> Positioned<S> {
    // The coordinates of a block of the scheme.
    pub(crate) fn coordinates(&self, block: Block) -> Result<BlockCoordinates, Refusal>
        requires { IsBlock (S.Scheme.meaning self.now.scheme) block }
        ensures { outcome result ≡ telling (coordinates_of (S.Scheme.meaning self.now.scheme) self.now.position block) }
    {
        match self.scheme.naming() {
            Naming::Line => {
                let rows = self.scheme.block_size().1.pixels * block.row;
                let y = line_below(self.position.1, rows).ok_or(TOO_LARGE)?;
                Ok(BlockCoordinates::Line { y })
            }
            Naming::Tile => {
                let tile = TileCoordinates::<i32>::try_from(block.tile_coordinates());
                Ok(BlockCoordinates::Tile(tile.map_err(|_| TOO_LARGE)?))
            }
        }
    }

    // The fields of the block's prefix but the data length. A layer's position is such that they always hold them.
    pub fn block_coordinates(&self, number: usize) -> Result<BlockCoordinates, Refusal>
        ensures { outcome result ≡ coordinates_told (S.Scheme.meaning self.now.scheme) self.now.position number }
    {
        let block = find_block(&self.scheme, number)?;
        self.coordinates(block)
    }
}
