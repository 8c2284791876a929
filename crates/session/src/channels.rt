// The channels of a session, with room for as many as a layer may have.
ghost use Rattle.std.specs.Prelude.{◌≡◌, [], IfOk};
ghost use Rattle.numbers.specs.Refusals.{outcome};
ghost use Rattle.session.specs.Sessions.{added, adding};

use layout::attribute::{ChannelDescription, SampleType};
use layout::description::MOST_CHANNELS;
use numbers::refusal::{Module, Reason, Refusal};
use numbers::vec2::Vec2;
use std::alloc::{AllocError, Global};
use std::marker::Model;

// Contracts see the list of the channels. The room is made once, so that no later call can want memory.
#[derive(Drop)]
pub struct Channels {
    row: Vec<ChannelDescription>,
}

impl Model for Channels {
    ghost use Rattle.std.specs.Prelude.{List, ◌≤◌, vec_capacity};
    ghost use Rattle.layout.specs.declared.attribute.ChannelDescription.{ChannelDescription};

    ghost Value = { List ChannelDescription };

    ghost view = { λ channels. channels.row.items };

    ghost invariant = { λ channels. 1024 ≤ vec_capacity channels.row };
}

impl Channels {
    pub fn new(heap: Global) -> Result<Channels, AllocError>
        ensures { IfOk result (λ channels. channels ≡ []) }
    {
        Ok(Channels {
            row: Vec::with_capacity(heap, MOST_CHANNELS)?,
        })
    }

    // One channel more, with a sample for each pixel. Answers how many there are then.
    pub fn add(&mut self, sample_type: SampleType) -> Result<usize, Refusal>
        ensures answer { outcome result ≡ adding self.old }
        ensures row { self.new ≡ added self.old sample_type }
    {
        if self.row.len() >= MOST_CHANNELS {
            return Err(Refusal::new(Reason::ChannelCount, Module::Program));
        }
        self.row.push_reserved(ChannelDescription {
            sample_type,
            sampling: Vec2(1, 1),
        });
        Ok(self.row.len())
    }

    pub fn as_slice(&self) -> &[ChannelDescription]
        ensures { result.now ≡ self.now }
    {
        self.row.as_slice()
    }
}
