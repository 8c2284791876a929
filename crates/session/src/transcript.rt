// A whole run: every command in turn, and the lines that it prints.
ghost use Rattle.std.specs.Prelude.{[], length, IfOk};
ghost use Rattle.session.specs.Runs.{Run};
ghost use Rattle.session.specs.Sessions.{channels};

use crate::channels::Channels;
use crate::line::Line;
use crate::session::{Session, step};
use commands::command::decode;
use std::alloc::{AllocError, Global};

// Fails only for want of memory.
pub fn transcript(heap: Global, bytes: &[u8]) -> Result<Vec<Line>, AllocError>
    ensures { IfOk result (λ lines. Run (length bytes.now) (channels []) bytes.now lines.items) }
{
    let mut lines = Vec::new(heap);
    let mut session = Session::Nothing(Channels::new(heap)?);
    let mut rest = bytes;
    while let [letter, ..] = rest {
        let letter = char::from(*letter);
        let Some((command, after)) = decode(rest) else {
            let place = bytes.len() - rest.len();
            lines.push(Line::Unreadable { place })?;
            return Ok(lines);
        };
        let (next, answer) = step(session, command);
        session = next;
        lines.push(Line::Answered { letter, answer })?;
        rest = after;
    }
    Ok(lines)
}
