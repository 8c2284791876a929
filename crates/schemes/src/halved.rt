// A level by how often each side was halved.
ghost use Rattle.std.specs.Prelude.{◌≡◌, ◌≤◌};
ghost use Rattle.schemes.specs.Levels.{level_at};

use crate::level::Level;
use crate::side::Side;
use numbers::rounding::RoundingMode;
use numbers::vec2::Vec2;

impl Level {
    pub(crate) fn halved(size: Vec2<Side>, round: RoundingMode, pair: Vec2<usize>) -> Level
        requires across { pair.0 ≤ 31 }
        requires down { pair.1 ≤ 31 }
        ensures { result ≡ level_at round size.0.pixels size.1.pixels pair.0 pair.1 }
    {
        Level {
            pair,
            width: size.0.at_level(round, pair.0),
            height: size.1.at_level(round, pair.1),
        }
    }
}
