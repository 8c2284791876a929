// Blocks by number, and numbers of blocks: they rise by level, then row, then column.
ghost use Rattle.std.specs.Prelude.{◌≡◌};
ghost use Rattle.blocks.specs.Numbering.{Numbered, number_at, of_block};
ghost use Rattle.numbers.specs.Refusals.{outcome};

use crate::block::Block;
use crate::cut::cut_level;
use numbers::refusal::{Module, Reason, Refusal};
use schemes::chunk_count::count_blocks;
use schemes::scheme::Scheme;

const NO_SUCH_BLOCK: Refusal = Refusal {
    reason: Reason::NoSuchBlock,
    module: Module::Schemes,
    place: 0,
};

// The block with a number. One pass over the levels: each that does not hold the number takes its blocks off it.
pub fn find_block<S: Scheme>(scheme: &S, number: usize) -> Result<Block, Refusal>
    ensures answer { outcome result ≡ of_block (S.Scheme.meaning scheme.now) number (λ b. b) }
    ensures law { Numbered (S.Scheme.meaning scheme.now) }
{
    let mut rest = number;
    for position in 0..scheme.level_count() {
        if let Some(cut) = cut_level(scheme, position) {
            let blocks = cut.across * cut.down;
            if rest < blocks {
                return Ok(Block {
                    position,
                    level: cut.level,
                    row: rest / cut.across,
                    column: rest % cut.across,
                });
            }
            rest -= blocks;
        }
    }
    Err(NO_SUCH_BLOCK)
}

// The number of the block in this row and column of the level at a position.
pub fn number_of_block<S: Scheme>(
    scheme: &S,
    position: usize,
    row: usize,
    column: usize,
) -> Result<usize, Refusal>
    ensures { outcome result ≡ number_at (S.Scheme.meaning scheme.now) position row column }
{
    let cut = cut_level(scheme, position).ok_or(NO_SUCH_BLOCK)?;
    if row < cut.down && column < cut.across {
        let before = count_blocks(scheme, scheme.block_size(), position);
        Ok(before + (row * cut.across + column))
    } else {
        Err(NO_SUCH_BLOCK)
    }
}
