// Blocks by tile indices and level pair, also those of scan lines, which are tiles as wide as the layer.
ghost use Rattle.std.specs.Prelude.{◌≡◌, ◌+◌};
ghost use Rattle.std.specs.Result.{result_ok};
ghost use Rattle.blocks.specs.Behind.{tile_behind};
ghost use Rattle.blocks.specs.Stored.{natural_tile, signed_tile, tile_at};

use fields::field::Field;
use numbers::vec2::{OutOfRange, Vec2};

// Column and row of a block in its level, and the level's pair: sizes where they are counted with, signed numbers where
// they are stored.
#[derive(Clone, Copy, PartialEq, Eq, Debug, Default)]
pub struct TileCoordinates<T> {
    pub tile_index: Vec2<T>,
    pub level_index: Vec2<T>,
}

// The same, with the pixels that the block has across and down.
#[derive(Clone, Copy, PartialEq, Eq, Debug)]
pub struct TileIndices {
    pub location: TileCoordinates<usize>,
    pub size: Vec2<usize>,
}

// Stored, the tile's pair stands before the level's.
impl<T: Field> Field for TileCoordinates<T> {
    ghost width = { T.width + T.width + (T.width + T.width) };

    ghost value = { tile_at T.width T.value };

    ghost behind = { tile_behind T.width T.value T.behind };

    fn read(bytes: &[u8]) -> Option<(TileCoordinates<T>, &[u8])> {
        let ((tile_index, level_index), rest) = <(Vec2<T>, Vec2<T>)>::read(bytes)?;
        let tile = TileCoordinates {
            tile_index,
            level_index,
        };
        Some((tile, rest))
    }
}

impl TryFrom<TileCoordinates<usize>> for TileCoordinates<i32> {
    type Error = OutOfRange;

    ghost try_from_gives = { λ counted r. result_ok r ≡ signed_tile counted };

    fn try_from(counted: TileCoordinates<usize>) -> Result<TileCoordinates<i32>, OutOfRange> {
        Ok(TileCoordinates {
            tile_index: counted.tile_index.try_into()?,
            level_index: counted.level_index.try_into()?,
        })
    }
}

impl TryFrom<TileCoordinates<i32>> for TileCoordinates<usize> {
    type Error = OutOfRange;

    ghost try_from_gives = { λ stored r. result_ok r ≡ natural_tile stored };

    fn try_from(stored: TileCoordinates<i32>) -> Result<TileCoordinates<usize>, OutOfRange> {
        Ok(TileCoordinates {
            tile_index: stored.tile_index.try_into()?,
            level_index: stored.level_index.try_into()?,
        })
    }
}
