// Making sides, and comparing them.
ghost use Rattle.std.specs.Prelude.{◌≡◌, max};
ghost use Rattle.numbers.specs.Wholes.{optional};
ghost use Rattle.schemes.specs.Making.{both_sides, pixels_of, pixels_of_both, side_of};

use crate::side::Side;
use numbers::vec2::Vec2;

const LARGEST_SIDE: usize = 2147483647;

impl Side {
    // Nothing where there are no pixels, or more than a signed 32-bit number counts.
    pub fn new(pixels: usize) -> Option<Side>
        ensures { optional pixels_of result ≡ side_of pixels }
    {
        if 1 <= pixels && pixels <= LARGEST_SIDE {
            Some(Side { pixels })
        } else {
            None
        }
    }

    // Two sides, where both are.
    pub fn both(size: Vec2<usize>) -> Option<Vec2<Side>>
        ensures { optional pixels_of_both result ≡ both_sides size }
    {
        Some(Vec2(Side::new(size.0)?, Side::new(size.1)?))
    }

    pub fn pixels_of(sides: Vec2<Side>) -> Vec2<usize>
        ensures { result ≡ pixels_of_both sides }
    {
        Vec2(sides.0.pixels, sides.1.pixels)
    }

    pub fn longer(self, other: Side) -> Side
        ensures { result.pixels ≡ max self.pixels other.pixels }
    {
        self.max(other)
    }
}
