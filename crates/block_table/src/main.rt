// Replays a table of questions about blocks: a line of words lays a layer out or asks it, and is answered by one line or more.
#![tactic(auto)]

mod answers;
mod order;
mod prefix;
mod questions;
mod repeated;
mod words;

use crate::answers::{Answer, Told};
use crate::questions::Question;
use crate::words::{described, numbers};
use layout::attribute::{ChannelDescription, SampleType};
use layout::description::LayerDescription;
use layout::layer::Layer;
use numbers::refusal::Refusal;
use numbers::vec2::Vec2;
use std::io;
use std::io::{BufRead, BufReader, BufWriter, Write};

// The layer that was described last, or why it was refused; none before the first.
#[derive(Drop)]
struct Replay {
    layer: Option<Result<Layer, Refusal>>,
}

impl Replay {
    // The part of a line whose numbers are read: nothing where it describes no layer and there is none to ask.
    fn asked<'a>(&self, line: &'a str) -> &'a str {
        if line.starts_with("layer ") || matches!(self.layer, Some(Ok(_))) {
            line
        } else {
            ""
        }
    }

    // A line that begins with `layer` changes the layer, and is answered as a question about it.
    fn answer<'a>(&mut self, line: &'a str, numbers: &[i64]) -> Option<Told<Answer<'a>>> {
        if line.starts_with("layer ") {
            self.layer = described(numbers).map(lay_out);
        }
        Some(Told(match self.layer? {
            Ok(layer) => Question::read(line, numbers)?.ask(&layer),
            Err(why) => Err(why),
        }))
    }
}

// With one channel of 16-bit floats.
fn lay_out(description: LayerDescription) -> Result<Layer, Refusal> {
    let channel = ChannelDescription {
        sample_type: SampleType::F16,
        sampling: Vec2(1, 1),
    };
    Layer::new(description, &[channel])
}

fn run(rt: &HostRuntime) -> anyhow::Result<()> {
    let mut out = BufWriter::new(rt.alloc(), rt.stdout())?;
    let mut replay = Replay { layer: None };
    for line in BufReader::new(rt.alloc(), rt.stdin())?.lines(rt.alloc()) {
        let line = line?;
        let numbers = numbers(rt.alloc(), replay.asked(line.as_str())).map_err(io::Error::from)?;
        match replay.answer(line.as_str(), numbers.as_slice()) {
            Some(answer) => writeln!(out, "{answer}")?,
            None => writeln!(out, "?")?,
        }
    }
    out.flush()?;
    Ok(())
}

fn main(rt: HostRuntime) -> anyhow::Result<()> {
    run(&rt)
}
