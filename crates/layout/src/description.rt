// A layer as it is described, and the rules on its window, its blocks and the number of its channels.
ghost use Rattle.std.specs.Prelude.{◌≡◌, not, ◌&&◌};
ghost use Rattle.layout.specs.Acceptance.{broken_rule, good_tile, is_tiled, is_unspecified};
ghost use Rattle.layout.specs.Asked.{scheme_of, tile_scheme_of};
ghost use Rattle.layout.specs.Windows.{good_lines};
ghost use Rattle.numbers.specs.Refusals.{number_of};
ghost use Rattle.numbers.specs.Wholes.{optional};
ghost use Rattle.std.specs.Result.{result_err};
ghost use Rattle.schemes.specs.Schemes.{any_meaning};
ghost use Rattle.schemes.specs.Windows.{window_fits};

use crate::attribute::{BlockDescription, LevelMode, TileDescription};
use crate::window::axis_fits;
use blocks::line_order::LineOrder;
use numbers::refusal::Reason;
use numbers::vec2::Vec2;
use schemes::any_scheme::AnyScheme;
use schemes::mip::MipLevels;
use schemes::rip::RipLevels;
use schemes::scan_lines::ScanLines;
use schemes::side::Side;
use schemes::single::OneLevel;
use schemes::tiles::Tiles;

pub const MOST_CHANNELS: usize = 1024;

// All of a description but its row of channels, which stays the caller's.
#[derive(Clone, Copy)]
pub struct LayerDescription {
    pub layer_position: Vec2<i32>,
    pub layer_size: Vec2<usize>,
    pub blocks: BlockDescription,
    // The lines of a scan line block, as the layer's compression gives them.
    pub lines_per_block: usize,
    pub line_order: LineOrder,
    pub deep: bool,
    // The number of blocks that the layer is said to have, where one is stated.
    pub chunk_count: Option<usize>,
}

fn good_lines(lines: usize) -> bool
    ensures { result ≡ good_lines lines }
{
    matches!(lines, 1 | 16 | 32 | 256)
}

// Whether a tile can be this large; scan lines have no tiles.
fn good_tile(blocks: BlockDescription) -> bool
    ensures { result ≡ good_tile blocks }
{
    match blocks {
        BlockDescription::ScanLines => true,
        BlockDescription::Tiles(tiles) => Side::both(tiles.tile_size).is_some(),
    }
}

fn tile_scheme(size: Vec2<Side>, tiles: TileDescription) -> Option<AnyScheme>
    ensures { optional any_meaning result ≡ tile_scheme_of size.0.pixels size.1.pixels tiles }
{
    let tile_size = Side::both(tiles.tile_size)?;
    let rounding_mode = tiles.rounding_mode;
    Some(match tiles.level_mode {
        LevelMode::Singular => {
            let levels = OneLevel { size };
            AnyScheme::Single(Tiles { levels, tile_size })
        }
        LevelMode::MipMap => {
            let levels = MipLevels {
                size,
                rounding_mode,
            };
            AnyScheme::Mip(Tiles { levels, tile_size })
        }
        LevelMode::RipMap => {
            let levels = RipLevels {
                size,
                rounding_mode,
            };
            AnyScheme::Rip(Tiles { levels, tile_size })
        }
    })
}

impl LayerDescription {
    // By the first rule on the window, the blocks and the number of channels that the description breaks.
    pub(crate) fn check(&self, channels: usize) -> Result<(), Reason>
        ensures { optional number_of (result_err result) ≡ broken_rule self.now channels }
    {
        if self.deep {
            Err(Reason::DeepLayer)
        } else if !self.window_fits() {
            Err(Reason::WindowOutOfRange)
        } else if self.lacks_line_order() {
            Err(Reason::UnspecifiedLineOrder)
        } else if self.layer_size.0 == 0 || self.layer_size.1 == 0 {
            Err(Reason::EmptySide)
        } else if !(good_lines(self.lines_per_block) && good_tile(self.blocks)) {
            Err(Reason::BlockSideOutOfRange)
        } else if channels == 0 || channels > MOST_CHANNELS {
            Err(Reason::ChannelCount)
        } else {
            Ok(())
        }
    }

    // Scan lines stand in the file in an order, from above or from below.
    fn lacks_line_order(&self) -> bool
        ensures { result ≡ (not (is_tiled self.now.blocks) && is_unspecified self.now.line_order) }
    {
        !self.is_tiled() && self.line_order == LineOrder::Unspecified
    }

    // The scheme that the description asks for, where all its sides are sides.
    pub(crate) fn scheme(&self) -> Option<AnyScheme>
        ensures { optional any_meaning result ≡ scheme_of self.now }
    {
        let size = Side::both(self.layer_size)?;
        match self.blocks {
            BlockDescription::ScanLines => {
                let lines = Side::new(self.lines_per_block)?;
                Some(AnyScheme::ScanLines(ScanLines { size, lines }))
            }
            BlockDescription::Tiles(tiles) => tile_scheme(size, tiles),
        }
    }

    fn window_fits(&self) -> bool
        ensures { result ≡ window_fits self.now.layer_position self.now.layer_size }
    {
        axis_fits(self.layer_position.0, self.layer_size.0)
            && axis_fits(self.layer_position.1, self.layer_size.1)
    }
}
