// The lines that a run prints.
ghost use Rattle.session.specs.Lines.{line_text};
ghost use Rattle.std.specs.Prelude.{Some};

use crate::answer::Answer;
use std::fmt;

#[derive(Clone, Copy)]
pub enum Line {
    Answered { letter: char, answer: Answer },
    // The place, from 0, of a letter whose command can't be read. The run ends there.
    Unreadable { place: usize },
}

impl fmt::Display for Line {
    ghost output = { λ line. Some (line_text line) };

    fn fmt<W: fmt::Write>(&self, f: &mut fmt::Formatter<W>) -> fmt::Result {
        match self {
            Line::Answered {
                letter,
                answer: Ok(accepted),
            } => write!(f, "{letter} ok {accepted}"),
            Line::Answered {
                letter,
                answer: Err(refusal),
            } => write!(f, "{letter} no {}", refusal.number()),
            Line::Unreadable { place } => write!(f, "? {place}"),
        }
    }
}
