// Finding the block of a scan line.
ghost use Rattle.std.specs.Prelude.{◌≡◌};
ghost use Rattle.layout.specs.Layers.{laid};
ghost use Rattle.layout.specs.Lines.{line_row, lines_of};
ghost use Rattle.numbers.specs.Refusals.{outcome};

use crate::layer::Layer;
use blocks::tile::TileCoordinates;
use numbers::refusal::{Module, Reason, Refusal};
use numbers::vec2::Vec2;

impl Layer {
    // The row of blocks that a line falls in, as if the blocks went on below the layer.
    pub fn get_scan_line_block_tile_coordinates(
        &self,
        block_y_coordinate: i32,
    ) -> Result<TileCoordinates<usize>, Refusal>
        ensures { outcome result ≡ line_row (laid self.now) (lines_of self.now) block_y_coordinate }
    {
        let distance = block_y_coordinate
            .checked_sub(self.positioned.position.1)
            .ok_or(Refusal::new(Reason::LineDistanceTooLarge, Module::Program))?;
        // Rounded down, the quotient is negative exactly where the distance is.
        let below = usize::try_from(distance);
        let distance = below.map_err(|_| Refusal::new(Reason::LineAboveLayer, Module::Program))?;
        Ok(TileCoordinates {
            tile_index: Vec2(0, distance / self.lines_per_block),
            level_index: Vec2(0, 0),
        })
    }
}
