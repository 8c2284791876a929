// Levels and blocks along one side, which the counting functions never refuse for sides in range.
ghost use Rattle.std.specs.Prelude.{◌≡◌, ◌<◌, ◌≤◌};
ghost use Rattle.numbers.specs.Counts.{blocks_along, levels_of, side_at};

use crate::side::Side;
use numbers::counts::{compute_block_count, compute_level_count, compute_level_size};
use numbers::rounding::RoundingMode;

impl Side {
    // The levels that the side is halved into.
    pub(crate) fn level_count(self, round: RoundingMode) -> usize
        ensures count { result ≡ levels_of round self.pixels }
        ensures some { 1 ≤ result }
        ensures few { result ≤ 32 }
    {
        compute_level_count(round, self.pixels).unwrap()
    }

    // The pixels that are left of the side at a level.
    pub(crate) fn at_level(self, round: RoundingMode, level_index: usize) -> usize
        requires { level_index ≤ 31 }
        ensures { result ≡ side_at round self.pixels level_index }
    {
        compute_level_size(round, self.pixels, level_index).unwrap()
    }

    // The blocks of this side that cut so many pixels.
    pub fn blocks_along(self, pixels: usize) -> usize
        ensures { result ≡ blocks_along pixels self.pixels }
    {
        compute_block_count(pixels, self.pixels).unwrap()
    }
}
