// The pixels of a block by its tile indices and level pair.
ghost use Rattle.std.specs.Prelude.{◌≡◌};
ghost use Rattle.layout.specs.Layers.{laid};
ghost use Rattle.layout.specs.Pixels.{BoundsByTile, block_pixels, plane_pixels, too_deep};
ghost use Rattle.numbers.specs.Refusals.{outcome};
ghost use Rattle.schemes.specs.Finding.{level_with};
ghost use Rattle.schemes.specs.Schemes.{any_meaning};

use crate::layer::Layer;
use blocks::bounds::IntegerBounds;
use blocks::tile::TileCoordinates;
use numbers::counts::LARGEST_LEVEL_INDEX;
use numbers::refusal::{Module, Reason, Refusal};
use numbers::vec2::Vec2;
use schemes::any_scheme::AnyScheme;
use schemes::find::find_level;
use schemes::level::{Level, Naming};
use schemes::scheme::Scheme;
use schemes::side::Side;

// Scan lines look at a level's pair as such, and have one.
fn is_too_deep(naming: Naming, level: Vec2<usize>) -> bool
    ensures { result ≡ too_deep naming level }
{
    match naming {
        Naming::Line => false,
        Naming::Tile => level.0 > LARGEST_LEVEL_INDEX || level.1 > LARGEST_LEVEL_INDEX,
    }
}

// Each kind by itself, so that a mip map counts its levels once, and not for the pair and again for the level that has it.
#[inline(always)]
fn level_of(scheme: &AnyScheme, pair: Vec2<usize>) -> Option<Level>
    ensures { result ≡ level_with (any_meaning scheme.now).levels pair }
{
    match scheme {
        AnyScheme::ScanLines(s) => find_level(s, pair),
        AnyScheme::Single(s) => find_level(s, pair),
        AnyScheme::Mip(s) => find_level(s, pair),
        AnyScheme::Rip(s) => find_level(s, pair),
    }
}

// What leads to a block's pixels is kept in line: where many tiles of a layer are asked for, what they share is found once.
impl Layer {
    // Inside its level, whose corner is (0, 0).
    #[inline(always)]
    pub fn get_absolute_block_pixel_coordinates(
        &self,
        tile: TileCoordinates<usize>,
    ) -> Result<IntegerBounds, Refusal>
        ensures value { outcome result ≡ block_pixels (laid self.now).scheme tile }
        ensures block { BoundsByTile (laid self.now).scheme tile result }
    {
        self.level_pixels(tile)
    }

    #[inline(always)]
    fn level_pixels(&self, tile: TileCoordinates<usize>) -> Result<IntegerBounds, Refusal>
        ensures { outcome result ≡ block_pixels (laid self.now).scheme tile }
    {
        if is_too_deep(self.positioned.scheme.naming(), tile.level_index) {
            return Err(Refusal::new(Reason::LevelIndexTooLarge, Module::Layers));
        }
        let scheme = &self.positioned.scheme;
        let level = level_of(scheme, tile.level_index).ok_or(Refusal::new(
            Reason::NoSuchTile,
            Module::Layers,
        ))?;
        let tile_size = Side::pixels_of(scheme.block_size());
        tile.to_data_indices(tile_size, Vec2(level.width, level.height))
    }

    // In the plane of the layer, where positions may be negative.
    #[inline(always)]
    pub fn get_block_data_window_pixel_coordinates(
        &self,
        tile: TileCoordinates<usize>,
    ) -> Result<IntegerBounds, Refusal>
        ensures { outcome result ≡ plane_pixels (laid self.now) tile }
    {
        let data = self.level_pixels(tile)?;
        data.with_origin(self.positioned.position)
    }
}
