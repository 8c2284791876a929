// The numbers of a line, and the layer that they describe.
ghost use Rattle.std.specs.Prelude.{◌≡◌};
ghost use Rattle.block_table.specs.Words.{int, size};

use blocks::line_order::LineOrder;
use layout::attribute::{BlockDescription, LevelMode, TileDescription};
use layout::description::LayerDescription;
use numbers::code::UnknownCode;
use numbers::rounding::RoundingMode;
use numbers::vec2::Vec2;
use std::alloc::{AllocError, Global};

// A word that is no number is left out.
pub(crate) fn numbers(heap: Global, line: &str) -> Result<Vec<i64>, AllocError> {
    line.split_whitespace()
        .filter_map(|word| word.parse::<i64>().ok())
        .collect(heap)
}

pub(crate) fn int(number: i64) -> i32
    ensures { result ≡ int number }
{
    i32::try_from(number).unwrap_or(i32::MAX)
}

pub(crate) fn size(number: i64) -> usize
    ensures { result ≡ size number }
{
    usize::try_from(number).unwrap_or(0)
}

// The case that a number names, or the last one.
fn case<T: TryFrom<u8, Error = UnknownCode> + Drop>(code: i64, last: T) -> T {
    let code = u8::try_from(code).ok();
    code.and_then(|code| T::try_from(code).ok()).unwrap_or(last)
}

// X Y W H LINES ORDER are scan lines, X Y W H LINES TW TH MODE ROUNDING ORDER tiles.
pub(crate) fn described(numbers: &[i64]) -> Option<LayerDescription> {
    let [x, y, w, h, lines, tiles @ .., order] = numbers else {
        return None;
    };
    let blocks = match tiles {
        [] => BlockDescription::ScanLines,
        [width, height, mode, rounding] => BlockDescription::Tiles(TileDescription {
            tile_size: Vec2(size(*width), size(*height)),
            level_mode: case(*mode, LevelMode::RipMap),
            rounding_mode: case(*rounding, RoundingMode::Up),
        }),
        _ => return None,
    };
    Some(LayerDescription {
        layer_position: Vec2(int(*x), int(*y)),
        layer_size: Vec2(size(*w), size(*h)),
        blocks,
        lines_per_block: size(*lines),
        line_order: case(*order, LineOrder::Unspecified),
        deep: false,
        chunk_count: None,
    })
}
