// The pixels of a tile by its indices, in a level or in a window.
ghost use Rattle.std.specs.Prelude.{◌≡◌};
ghost use Rattle.blocks.specs.Tiles.{absolute_indices, data_indices, with_origin};
ghost use Rattle.numbers.specs.Refusals.{outcome};

use crate::bounds::IntegerBounds;
use crate::tile::TileCoordinates;
use numbers::counts::calculate_block_position_and_size;
use numbers::refusal::{Module, Reason, Refusal};
use numbers::vec2::Vec2;
use numbers::whole::Whole;

const OUTSIDE: Refusal = Refusal {
    reason: Reason::NoSuchTile,
    module: Module::Prefixes,
    place: 0,
};

// Where a position leaves 32 signed bits.
pub const TOO_LARGE: Refusal = Refusal {
    reason: Reason::PositionTooLarge,
    module: Module::Prefixes,
    place: 0,
};

impl IntegerBounds {
    // In the plane in which the bounds' corner (0, 0) lies at the origin.
    pub fn with_origin(self, origin: Vec2<i32>) -> Result<IntegerBounds, Refusal>
        ensures { outcome result ≡ with_origin origin self }
    {
        let position = self.position.sum(origin).ok_or(TOO_LARGE)?;
        Ok(IntegerBounds {
            position,
            size: self.size,
        })
    }
}

impl TileCoordinates<usize> {
    // Inside an image of this size. The level is not looked at: the image is the level's.
    pub fn to_data_indices(
        &self,
        tile_size: Vec2<usize>,
        max: Vec2<usize>,
    ) -> Result<IntegerBounds, Refusal>
        ensures { outcome result ≡ data_indices tile_size max self.now }
    {
        let (x, width) = calculate_block_position_and_size(
            max.0,
            tile_size.0,
            self.tile_index.0,
        ).map_err(|_| OUTSIDE)?;
        let (y, height) = calculate_block_position_and_size(
            max.1,
            tile_size.1,
            self.tile_index.1,
        ).map_err(|_| OUTSIDE)?;
        let position = Vec2::<i32>::try_from(Vec2(x, y)).map_err(|_| TOO_LARGE)?;
        Ok(IntegerBounds {
            position,
            size: Vec2(width, height),
        })
    }

    // In the plane that the window lies in, where positions may be negative.
    pub fn to_absolute_indices(
        &self,
        tile_size: Vec2<usize>,
        data_window: IntegerBounds,
    ) -> Result<IntegerBounds, Refusal>
        ensures { outcome result ≡ absolute_indices tile_size data_window self.now }
    {
        let data = self.to_data_indices(tile_size, data_window.size)?;
        data.with_origin(data_window.position)
    }
}
