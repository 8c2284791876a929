// Codes that stand for no case.
ghost use Rattle.std.specs.Prelude.{Some};
ghost use Rattle.numbers.specs.Codes.{unknown_text};

use std::error::Error;
use std::fmt;

// A byte that stands for no case of the type that was asked for.
#[derive(Clone, Copy, Debug, PartialEq, Eq)]
pub struct UnknownCode(pub u8);

impl fmt::Display for UnknownCode {
    ghost output = { λ unknown. Some (unknown_text unknown) };

    fn fmt<W: fmt::Write>(&self, f: &mut fmt::Formatter<W>) -> fmt::Result {
        write!(f, "no case has the code {}", self.0)
    }
}

impl Error for UnknownCode {}
