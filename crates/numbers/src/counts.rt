// Counting along one side of a layer: its blocks, where they begin and end, its levels and their sizes.
ghost use Rattle.std.specs.Prelude.{◌≡◌};
ghost use Rattle.numbers.specs.Counts.{block_count, block_position_and_size, block_size_at, level_count, level_size};
ghost use Rattle.numbers.specs.Refusals.{outcome};

use crate::refusal::{Module, Reason, Refusal};
use crate::rounding::RoundingMode;

pub const LARGEST_LEVEL_INDEX: usize = 63;

const LARGEST_COUNTED_SIDE: usize = u32::MAX as usize;

const PAST_TOTAL: Refusal = Refusal {
    reason: Reason::PositionPastTotal,
    module: Module::Sides,
    place: 0,
};

// Rounded up, since what is left past the last whole block is a block too.
pub fn compute_block_count(full_res: usize, tile_size: usize) -> Result<usize, Refusal>
    ensures { outcome result ≡ block_count full_res tile_size }
{
    RoundingMode::Up.divide(full_res, tile_size)
}

// The block side, or what is left of the total from the position on where that is less.
pub fn calculate_block_size(
    total_size: usize,
    block_size: usize,
    block_position: usize,
) -> Result<usize, Refusal>
    ensures { outcome result ≡ block_size_at total_size block_size block_position }
{
    if block_position < total_size {
        Ok(block_size.min(total_size - block_position))
    } else {
        Err(PAST_TOTAL)
    }
}

// A position past 64 bits is past every total.
pub fn calculate_block_position_and_size(
    total_size: usize,
    block_size: usize,
    block_index: usize,
) -> Result<(usize, usize), Refusal>
    ensures { outcome result ≡ block_position_and_size total_size block_size block_index }
{
    let block_position = block_size.checked_mul(block_index).ok_or(PAST_TOTAL)?;
    let size = calculate_block_size(total_size, block_size, block_position)?;
    Ok((block_position, size))
}

pub fn compute_level_count(round: RoundingMode, full_res: usize) -> Result<usize, Refusal>
    ensures { outcome result ≡ level_count round full_res }
{
    if full_res <= LARGEST_COUNTED_SIDE {
        Ok(round.log2(full_res as u32) as usize + 1)
    } else {
        Err(Refusal::new(Reason::NumberOutOfRange, Module::Sides))
    }
}

pub fn compute_level_size(
    round: RoundingMode,
    full_res: usize,
    level_index: usize,
) -> Result<usize, Refusal>
    ensures { outcome result ≡ level_size round full_res level_index }
{
    if level_index <= LARGEST_LEVEL_INDEX {
        let size = round.divide(full_res, 1 << level_index)?;
        Ok(size.max(1))
    } else {
        Err(Refusal::new(Reason::LevelIndexTooLarge, Module::Sides))
    }
}
