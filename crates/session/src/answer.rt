// What a command answers, and how what was done is printed.
ghost use Rattle.session.specs.Lines.{accepted_text};
ghost use Rattle.std.specs.Prelude.{Some};

use numbers::refusal::Refusal;
use std::fmt;

// What a command that was not refused did.
#[derive(Clone, Copy)]
pub enum Accepted {
    // How many channels there are now.
    Channels(usize),
    Layer {
        chunk_count: usize,
        total_pixel_bytes: usize,
    },
}

pub type Answer = Result<Accepted, Refusal>;

impl fmt::Display for Accepted {
    ghost output = { λ accepted. Some (accepted_text accepted) };

    fn fmt<W: fmt::Write>(&self, f: &mut fmt::Formatter<W>) -> fmt::Result {
        match self {
            Accepted::Channels(count) => write!(f, "{count}"),
            Accepted::Layer {
                chunk_count,
                total_pixel_bytes,
            } => write!(f, "{chunk_count} {total_pixel_bytes}"),
        }
    }
}
