// The levels of an image, by the list that they make.
ghost use Rattle.std.specs.Prelude.{◌≡◌, List, length};
ghost use Rattle.std.specs.List.{slice_get};
ghost use Rattle.schemes.specs.Meanings.{EndsAtOnePixel, LawfulLevels, position_of};
ghost use Rattle.schemes.specs.declared.level.Level.{Level as LevelOf};

use crate::level::Level;
use numbers::vec2::Vec2;

pub trait Levels {
    // The levels that a value stands for, in their order.
    ghost list: { Self → List LevelOf };

    fn count(&self) -> usize
        ensures { result ≡ length (list self.now) };

    // Absent exactly past the end of the list.
    fn level(&self, position: usize) -> Option<Level>
        ensures { result ≡ slice_get (list self.now) position };

    // Absent exactly where no level has the pair.
    fn position(&self, pair: Vec2<usize>) -> Option<usize>
        ensures { result ≡ position_of (list self.now) pair };

    ghost lawful: { (s : Self) → LawfulLevels (list s) };
}

// Levels that halve until one pixel is left.
pub trait Halving: Levels {
    ghost ends: { (s : Self) → EndsAtOnePixel (Self.Levels.list s) };
}
