// The worked layers of docs/RULES.md.
ghost use Rattle.std.specs.Prelude.{◌≡◌, [], ◌∷◌, Some};
ghost use Rattle.layout.specs.Worked.{WorkedBlocks, WorkedLayers, chunks_of, five_by_three, thirty_three_lines};

use crate::attribute::{
    BlockDescription, ChannelDescription, LevelMode, SampleType, TileDescription,
};
use crate::description::LayerDescription;
use crate::layer::Layer;
use blocks::line_order::LineOrder;
use numbers::rounding::RoundingMode;
use numbers::vec2::Vec2;

// A layer of 5 by 3 in tiles of 2 by 2.
fn five_by_three(level_mode: LevelMode, rounding_mode: RoundingMode) -> LayerDescription
    ensures { result ≡ five_by_three level_mode rounding_mode }
{
    LayerDescription {
        layer_position: Vec2(0, 0),
        layer_size: Vec2(5, 3),
        blocks: BlockDescription::Tiles(TileDescription {
            tile_size: Vec2(2, 2),
            level_mode,
            rounding_mode,
        }),
        lines_per_block: 1,
        line_order: LineOrder::Increasing,
        deep: false,
        chunk_count: None,
    }
}

// A layer 33 lines high in blocks of 32 lines.
fn thirty_three_lines() -> LayerDescription
    ensures { result ≡ thirty_three_lines }
{
    LayerDescription {
        layer_position: Vec2(0, 0),
        layer_size: Vec2(1, 33),
        blocks: BlockDescription::ScanLines,
        lines_per_block: 32,
        line_order: LineOrder::Increasing,
        deep: false,
        chunk_count: None,
    }
}

// The chunk count of a description with one channel, where it is accepted.
fn chunks(description: LayerDescription) -> Option<usize>
    ensures { result ≡ chunks_of description }
{
    let channel = ChannelDescription {
        sample_type: SampleType::F16,
        sampling: Vec2(1, 1),
    };
    let layer = Layer::new(description, &[channel]).ok()?;
    Some(layer.chunk_count())
}

// Lays the worked layers out: five modes of tiles, and lines. Its contract states what they come to, with the blocks,
// bounds and orders that docs/RULES.md names.
pub fn worked_chunk_counts() -> [Option<usize>; 6]
    ensures counts { result ≡ Some 6 ∷ (Some 8 ∷ (Some 10 ∷ (Some 15 ∷ (Some 28 ∷ (Some 2 ∷ []))))) }
    ensures stated { WorkedLayers }
    ensures blocks { WorkedBlocks }
{
    [
        chunks(five_by_three(LevelMode::Singular, RoundingMode::Down)),
        chunks(five_by_three(LevelMode::MipMap, RoundingMode::Down)),
        chunks(five_by_three(LevelMode::MipMap, RoundingMode::Up)),
        chunks(five_by_three(LevelMode::RipMap, RoundingMode::Down)),
        chunks(five_by_three(LevelMode::RipMap, RoundingMode::Up)),
        chunks(thirty_three_lines()),
    ]
}
