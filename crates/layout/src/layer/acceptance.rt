// Accepting a layer, and asking an accepted one.
ghost use Rattle.std.specs.Prelude.{◌≡◌};
ghost use Rattle.layout.specs.Acceptance.{accepted, states};
ghost use Rattle.layout.specs.Layers.{laid};
ghost use Rattle.layout.specs.Lines.{KeepsItsLines};
ghost use Rattle.layout.specs.Totals.{TakesItsChannels};
ghost use Rattle.numbers.specs.Refusals.{outcome_as};
ghost use Rattle.schemes.specs.Blocks.{chunks_in};
ghost use Rattle.schemes.specs.Schemes.{any_meaning};

use crate::attribute::ChannelDescription;
use crate::channel::bytes_per_pixel;
use crate::description::LayerDescription;
use crate::layer::Layer;
use blocks::line_order::LineOrder;
use numbers::refusal::{Module, Reason, Refusal};
use numbers::vec2::Vec2;
use prefixes::positioned::Positioned;
use schemes::any_scheme::AnyScheme;
use schemes::chunk_count::compute_chunk_count;

// Whether the count is the one that was stated, where one was.
fn is_stated(stated: Option<usize>, chunk_count: usize) -> bool
    ensures { result ≡ states stated chunk_count }
{
    stated.is_none_or(|stated| stated == chunk_count)
}

impl Layer {
    // Lays out what is described, or refuses it by the first rule that it breaks.
    pub fn new(
        description: LayerDescription,
        channels: &[ChannelDescription],
    ) -> Result<Layer, Refusal>
        ensures value { outcome_as laid result ≡ accepted description channels.now }
        ensures bytes { TakesItsChannels channels.now result }
        ensures lines { KeepsItsLines description result }
    {
        description
            .check(channels.len())
            .map_err(|reason| Refusal::new(reason, Module::Layers))?;
        description.check_channels(channels)?;
        // No rule is broken, so the scheme is there.
        let scheme = description.scheme().unwrap();
        let chunk_count = compute_chunk_count(&scheme);
        if !is_stated(description.chunk_count, chunk_count) {
            return Err(Refusal::new(Reason::WrongChunkCount, Module::Layers));
        }
        Ok(Layer {
            positioned: Positioned {
                scheme,
                position: description.layer_position,
            },
            line_order: description.line_order,
            lines_per_block: description.lines_per_block,
            bytes_per_pixel: bytes_per_pixel(channels),
            chunk_count,
        })
    }

    pub fn position(&self) -> Vec2<i32>
        ensures { result ≡ (laid self.now).position }
    {
        self.positioned.position
    }

    pub fn line_order(&self) -> LineOrder
        ensures { result ≡ (laid self.now).order }
    {
        self.line_order
    }

    pub fn scheme(&self) -> AnyScheme
        ensures { any_meaning result ≡ (laid self.now).scheme }
    {
        self.positioned.scheme
    }

    pub fn bytes_per_pixel(&self) -> usize
        ensures { result ≡ (laid self.now).bytes }
    {
        self.bytes_per_pixel
    }

    pub fn chunk_count(&self) -> usize
        ensures { result ≡ chunks_in (laid self.now).scheme }
    {
        self.chunk_count
    }
}
