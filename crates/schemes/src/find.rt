// Finding a level by its pair.
ghost use Rattle.std.specs.Prelude.{◌≡◌};
ghost use Rattle.schemes.specs.Finding.{IsLevelWith, level_with};

use crate::level::Level;
use crate::scheme::Scheme;
use numbers::vec2::Vec2;

// The level that has the pair, and nothing exactly where no level has it.
pub fn find_level<S: Scheme>(scheme: &S, pair: Vec2<usize>) -> Option<Level>
    ensures value { result ≡ level_with (S.Scheme.meaning scheme.now).levels pair }
    ensures law { IsLevelWith (S.Scheme.meaning scheme.now).levels pair result }
{
    scheme.level(scheme.position(pair)?)
}
