// How many pixels the levels of a layer have together.
ghost use Rattle.std.specs.Prelude.{◌≡◌};
ghost use Rattle.schemes.specs.Blocks.{pixel_count};

use crate::chunk_count::count_blocks;
use crate::scheme::Scheme;
use crate::side::Side;
use numbers::vec2::Vec2;

// Pixels are blocks of one by one.
pub fn compute_pixel_count<S: Scheme>(scheme: &S) -> usize
    ensures { result ≡ pixel_count (S.Scheme.meaning scheme.now) }
{
    let pixel = Side { pixels: 1 };
    count_blocks(scheme, Vec2(pixel, pixel), scheme.level_count())
}
