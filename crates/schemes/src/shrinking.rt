// Schemes that shrink to one pixel.
ghost use Rattle.std.specs.Prelude.{◌≡◌, ℕ, ◌+◌, ◌<◌, length};
ghost use Rattle.std.specs.List.{slice_get};
ghost use Rattle.schemes.specs.Meanings.{OneByOne};

use crate::scheme::Scheme;

pub trait Shrinking: Scheme {
    // The position of the smallest level.
    fn smallest(&self) -> usize
        ensures last { result + 1 ≡ length (Self.Scheme.meaning self.now).levels }
        ensures pixel { OneByOne (slice_get (Self.Scheme.meaning self.now).levels result) }
        ensures earlier { (i : ℕ) → i < result → OneByOne (slice_get (Self.Scheme.meaning self.now).levels i) → ⊥ };
}
