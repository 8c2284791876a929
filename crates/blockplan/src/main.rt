// Lays out layers: reads one-letter commands from standard input, and prints a line for each.
#![tactic(auto)]

use anyhow::anyhow;
use session::transcript::transcript;
use std::io::{BufWriter, Read, Write};

const MOST_BYTES: usize = 65536;

fn run(rt: &HostRuntime) -> anyhow::Result<()> {
    let mut bytes = Vec::new(rt.alloc());
    rt.stdin()
        .take(MOST_BYTES as u64 + 1)
        .read_to_end(&mut bytes)?;
    if bytes.len() > MOST_BYTES {
        return Err(anyhow!("the commands have more than 65,536 bytes; nothing was run"));
    }
    let lines = transcript(rt.alloc(), bytes.as_slice())?;
    let mut out = BufWriter::new(rt.alloc(), rt.stdout())?;
    for line in lines.as_slice() {
        writeln!(out, "{line}")?;
    }
    out.flush()?;
    Ok(())
}

fn main(rt: HostRuntime) -> anyhow::Result<()> {
    run(&rt)
}
