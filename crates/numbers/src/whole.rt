// The kinds of whole numbers that sizes and positions are made of.
ghost use Rattle.std.specs.Prelude.{◌≡◌, ℤ, pos, negsuc, ◌+ℤ◌, ◌-ℤ◌, ◌*ℤ◌};
ghost use Rattle.numbers.specs.Rounding.{quotient as quotient_of};
ghost use Rattle.numbers.specs.Wholes.{optional, within};

use crate::rounding::RoundingMode;

// A kind of whole number. Each call answers the true value, and nothing exactly where that leaves the kind's range.
pub trait Whole: Sized {
    // The whole number that a value stands for.
    ghost number: { Self → ℤ };

    // The ends of the kind's range.
    ghost least: { ℤ };

    ghost greatest: { ℤ };

    fn sum(self, other: Self) -> Option<Self>
        ensures { optional number result ≡ within least greatest (number self +ℤ number other) };

    fn difference(self, other: Self) -> Option<Self>
        ensures { optional number result ≡ within least greatest (number self -ℤ number other) };

    fn product(self, other: Self) -> Option<Self>
        ensures { optional number result ≡ within least greatest (number self *ℤ number other) };

    // Nothing where the dividend is negative or the divisor below 1.
    fn quotient(self, divisor: Self, mode: RoundingMode) -> Option<Self>
        ensures { optional number result ≡ quotient_of mode (number self) (number divisor) };
}

impl Whole for usize {
    ghost number = { pos };

    ghost least = { pos 0 };

    ghost greatest = { pos 18446744073709551615 };

    fn sum(self, other: usize) -> Option<usize> {
        self.checked_add(other)
    }

    fn difference(self, other: usize) -> Option<usize> {
        self.checked_sub(other)
    }

    fn product(self, other: usize) -> Option<usize> {
        self.checked_mul(other)
    }

    fn quotient(self, divisor: usize, mode: RoundingMode) -> Option<usize> {
        if divisor < 1 {
            return None;
        }
        match mode {
            RoundingMode::Down => Some(self / divisor),
            RoundingMode::Up => Some(self.div_ceil(divisor)),
        }
    }
}

impl Whole for i32 {
    ghost number = { λ z. z };

    ghost least = { negsuc 2147483647 };

    ghost greatest = { pos 2147483647 };

    fn sum(self, other: i32) -> Option<i32> {
        self.checked_add(other)
    }

    fn difference(self, other: i32) -> Option<i32> {
        self.checked_sub(other)
    }

    fn product(self, other: i32) -> Option<i32> {
        self.checked_mul(other)
    }

    // The dividend is not negative, so one less than it, divided, is one less than the quotient rounded up.
    fn quotient(self, divisor: i32, mode: RoundingMode) -> Option<i32> {
        if self < 0 || divisor < 1 {
            return None;
        }
        match mode {
            RoundingMode::Down => Some(self / divisor),
            RoundingMode::Up if self == 0 => Some(0),
            RoundingMode::Up => Some((self - 1) / divisor + 1),
        }
    }
}
