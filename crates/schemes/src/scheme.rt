// Level schemes, by what they mean.
ghost use Rattle.std.specs.Prelude.{◌≡◌, length};
ghost use Rattle.std.specs.List.{slice_get};
ghost use Rattle.schemes.specs.Making.{pixels_of_both};
ghost use Rattle.schemes.specs.Meanings.{Meaning, Lawful, block_size, position_of};

use crate::level::{Level, Naming};
use crate::side::Side;
use numbers::vec2::Vec2;

pub trait Scheme {
    // The levels and blocks that a value stands for. A question changes nothing, so the meaning stays.
    ghost meaning: { Self → Meaning };

    fn level_count(&self) -> usize
        ensures { result ≡ length (meaning self.now).levels };

    // The sides of every block that is not clipped.
    fn block_size(&self) -> Vec2<Side>
        ensures { pixels_of_both result ≡ block_size (meaning self.now) };

    fn naming(&self) -> Naming
        ensures { result ≡ (meaning self.now).naming };

    // Absent exactly past the end of the list.
    fn level(&self, position: usize) -> Option<Level>
        ensures { result ≡ slice_get (meaning self.now).levels position };

    // Absent exactly where no level has the pair.
    fn position(&self, pair: Vec2<usize>) -> Option<usize>
        ensures { result ≡ position_of (meaning self.now).levels pair };

    ghost lawful: { (s : Self) → Lawful (meaning s) };
}

// What is lent is the scheme that it lends.
impl<S: Scheme> Scheme for &S {
    ghost meaning = { λ s. S.meaning s.now };

    ghost lawful = { λ s. S.lawful s.now };

    fn level_count(&self) -> usize {
        (*self).level_count()
    }

    fn block_size(&self) -> Vec2<Side> {
        (*self).block_size()
    }

    fn naming(&self) -> Naming {
        (*self).naming()
    }

    fn level(&self, position: usize) -> Option<Level> {
        (*self).level(position)
    }

    fn position(&self, pair: Vec2<usize>) -> Option<usize> {
        (*self).position(pair)
    }
}
