// How many blocks, or chunks of a file, a layer is cut into.
ghost use Rattle.std.specs.Prelude.{◌≡◌, ◌^◌, ◌<◌, sum_by, take};
ghost use Rattle.schemes.specs.Blocks.{blocks_in, chunks_in};
ghost use Rattle.schemes.specs.Making.{pixels_of_both};
ghost use Rattle.schemes.specs.Meanings.{area};

use crate::level::Level;
use crate::scheme::Scheme;
use crate::side::Side;
use numbers::vec2::Vec2;

// The blocks of one level.
fn level_block_count(level: Level, block: Vec2<Side>) -> usize
    requires { area level < 2 ^ 64 }
    ensures { result ≡ blocks_in (pixels_of_both block) level }
{
    block.0.blocks_along(level.width) * block.1.blocks_along(level.height)
}

// The blocks of this size that cut the first levels of a scheme, as many as are asked for and are there. It is inlined, since
// a lookup among the blocks of one level asks for none of them, and a call would be much of what that costs.
#[inline]
pub fn count_blocks<S: Scheme>(scheme: &S, block: Vec2<Side>, levels: usize) -> usize
    ensures { result ≡ sum_by (blocks_in (pixels_of_both block)) (take levels (S.Scheme.meaning scheme.now).levels) }
{
    (0..levels)
        .map_while(|position| scheme.level(position))
        .map(|level| level_block_count(level, block))
        .sum()
}

pub fn compute_chunk_count<S: Scheme>(scheme: &S) -> usize
    ensures { result ≡ chunks_in (S.Scheme.meaning scheme.now) }
{
    let block = scheme.block_size();
    count_blocks(scheme, block, scheme.level_count())
}
