// Rounding down or up, of quotients and of logarithms to base 2.
ghost use Rattle.std.specs.Prelude.{◌≡◌};
ghost use Rattle.numbers.specs.Codes.{decoded, rounding_mode};
ghost use Rattle.numbers.specs.Logs.{log2 as log_of};
ghost use Rattle.numbers.specs.Refusals.{outcome_as};
ghost use Rattle.numbers.specs.Rounding.{divided, AnswersRounded};

use crate::code::UnknownCode;
use crate::logs::{ceil_log_2, floor_log_2};
use crate::refusal::{Module, Reason, Refusal};
use crate::whole::Whole;

#[derive(Clone, Copy, PartialEq, Eq, Debug)]
pub enum RoundingMode {
    Down,
    Up,
}

impl TryFrom<u8> for RoundingMode {
    type Error = UnknownCode;

    ghost try_from_gives = { λ code result. result ≡ decoded rounding_mode code };

    fn try_from(code: u8) -> Result<RoundingMode, UnknownCode> {
        match code {
            0 => Ok(RoundingMode::Down),
            1 => Ok(RoundingMode::Up),
            _ => Err(UnknownCode(code)),
        }
    }
}

impl RoundingMode {
    pub fn log2(self, number: u32) -> u32
        ensures { result ≡ log_of self number }
    {
        match self {
            RoundingMode::Down => floor_log_2(number),
            RoundingMode::Up => ceil_log_2(number),
        }
    }

    // Exact wherever it is not refused, also where dividend and divisor add up to more than the kind holds.
    pub fn divide<T: Whole + Drop>(self, dividend: T, divisor: T) -> Result<T, Refusal>
        ensures value { outcome_as T.Whole.number result ≡ divided self (T.Whole.number dividend) (T.Whole.number divisor) }
        ensures exact { AnswersRounded T.Whole.number self dividend divisor result }
    {
        let quotient = dividend.quotient(divisor, self);
        quotient.ok_or(Refusal::new(Reason::NumberOutOfRange, Module::Numbers))
    }
}
