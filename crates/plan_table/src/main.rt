// Replays a table of plans: each line of hexadecimal bytes is a session of its own; a line after `#` is told again.
#![tactic(auto)]

ghost use Rattle.std.specs.Prelude.{◌≡◌, ◌<◌, IfSome};
ghost use Rattle.plan_table.specs.Hexadecimal.{byte_of, digit_of};

use session::transcript::transcript;
use std::alloc::{AllocError, Global};
use std::io;
use std::io::{BufRead, BufReader, BufWriter, Write};

// Lower-case letters alone are digits.
fn digit(letter: u8) -> Option<u8>
    ensures value { result ≡ digit_of letter }
    ensures small { IfSome result (λ d. d < 16) }
{
    match letter {
        b'0'..=b'9' => Some(letter - b'0'),
        b'a'..=b'f' => Some(letter - b'a' + 10),
        _ => None,
    }
}

// The byte that a pair of hexadecimal digits writes.
fn byte(pair: &[u8]) -> Option<u8>
    ensures { result ≡ byte_of pair.now }
{
    let [high, low] = pair else {
        return None;
    };
    Some(digit(*high)? * 16 + digit(*low)?)
}

// The bytes that pairs of digits write; what is no pair of digits ends them.
fn unhex(heap: Global, text: &[u8]) -> Result<Vec<u8>, AllocError> {
    text.chunks_exact(2).map_while(byte).collect(heap)
}

fn replay<W: Write>(heap: Global, plan: &[u8], out: &mut W) -> io::Result<()> {
    let bytes = unhex(heap, plan)?;
    let lines = transcript(heap, bytes.as_slice())?;
    for line in &lines {
        writeln!(out, "{line}")?;
    }
    Ok(())
}

fn run(rt: &HostRuntime) -> anyhow::Result<()> {
    let mut out = BufWriter::new(rt.alloc(), rt.stdout())?;
    for line in BufReader::new(rt.alloc(), rt.stdin())?.lines(rt.alloc()) {
        let line = line?;
        if line.as_str().starts_with('#') {
            writeln!(out, "{line}")?;
        } else {
            replay(rt.alloc(), line.as_bytes(), &mut out)?;
        }
    }
    out.flush()?;
    Ok(())
}

fn main(rt: HostRuntime) -> anyhow::Result<()> {
    run(&rt)
}
