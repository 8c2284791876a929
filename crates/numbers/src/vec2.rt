// Pairs of numbers of one kind: sizes, positions, level pairs.
ghost use Rattle.std.specs.Prelude.{◌≡◌, ◌+ℤ◌, ◌-ℤ◌, ◌*ℤ◌, Some, codes};
ghost use Rattle.numbers.specs.Pairs.{by_parts, naturals, numbers_of, signed_pair};
ghost use Rattle.std.specs.Result.{result_ok};

use crate::whole::Whole;
use std::error::Error;
use std::fmt;

#[derive(Clone, Copy, PartialEq, Eq, Debug, Default)]
pub struct Vec2<T>(pub T, pub T);

// Each is absent exactly where one of its two parts leaves the kind's range.
impl<T: Whole + Drop> Vec2<T> {
    pub fn sum(self, other: Vec2<T>) -> Option<Vec2<T>>
        ensures { numbers_of T.Whole.number result ≡ by_parts ◌+ℤ◌ T.Whole.number T.Whole.least T.Whole.greatest self other }
    {
        Some(Vec2(self.0.sum(other.0)?, self.1.sum(other.1)?))
    }

    pub fn difference(self, other: Vec2<T>) -> Option<Vec2<T>>
        ensures { numbers_of T.Whole.number result ≡ by_parts ◌-ℤ◌ T.Whole.number T.Whole.least T.Whole.greatest self other }
    {
        Some(Vec2(self.0.difference(other.0)?, self.1.difference(other.1)?))
    }

    pub fn product(self, other: Vec2<T>) -> Option<Vec2<T>>
        ensures { numbers_of T.Whole.number result ≡ by_parts ◌*ℤ◌ T.Whole.number T.Whole.least T.Whole.greatest self other }
    {
        Some(Vec2(self.0.product(other.0)?, self.1.product(other.1)?))
    }
}

// 64 bits hold what 32 bits hold.
impl From<Vec2<u32>> for Vec2<usize> {
    ghost from_gives = { λ pair sizes. sizes ≡ pair };

    fn from(pair: Vec2<u32>) -> Vec2<usize> {
        let Vec2(width, height) = pair;
        Vec2(width as usize, height as usize)
    }
}

// Why a pair has no counterpart of another kind.
#[derive(Clone, Copy, PartialEq, Eq, Debug)]
pub struct OutOfRange;

impl fmt::Display for OutOfRange {
    ghost output = { λ _. Some (codes "a part of the pair is out of range") };

    fn fmt<W: fmt::Write>(&self, f: &mut fmt::Formatter<W>) -> fmt::Result {
        f.write_str("a part of the pair is out of range")
    }
}

impl Error for OutOfRange {}

// A size or index as it is stored.
impl TryFrom<Vec2<usize>> for Vec2<i32> {
    type Error = OutOfRange;

    ghost try_from_gives = { λ pair r. result_ok r ≡ signed_pair pair };

    fn try_from(pair: Vec2<usize>) -> Result<Vec2<i32>, OutOfRange> {
        let Vec2(x, y) = pair;
        let x = i32::try_from(x).map_err(|_| OutOfRange)?;
        let y = i32::try_from(y).map_err(|_| OutOfRange)?;
        Ok(Vec2(x, y))
    }
}

// A stored size or index as it is counted with.
impl TryFrom<Vec2<i32>> for Vec2<usize> {
    type Error = OutOfRange;

    ghost try_from_gives = { λ pair r. result_ok r ≡ naturals pair };

    fn try_from(pair: Vec2<i32>) -> Result<Vec2<usize>, OutOfRange> {
        let Vec2(across, down) = pair;
        let across = usize::try_from(across).map_err(|_| OutOfRange)?;
        let down = usize::try_from(down).map_err(|_| OutOfRange)?;
        Ok(Vec2(across, down))
    }
}
