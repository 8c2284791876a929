// The rules on channels, taken one by one, and the bytes of a pixel.
ghost use Rattle.std.specs.Prelude.{◌≡◌, ◌≤◌, true, length};
ghost use Rattle.layout.specs.Acceptance.{broken_channel, broken_channel_rule, divides_window, full, good_sampling, is_tiled};
ghost use Rattle.layout.specs.Channels.{pixel_bytes};
ghost use Rattle.numbers.specs.Refusals.{number_of, told};
ghost use Rattle.numbers.specs.Wholes.{optional};
ghost use Rattle.std.specs.Result.{result_err};

use crate::attribute::{BlockDescription, ChannelDescription};
use crate::description::LayerDescription;
use crate::window::axis_divides;
use numbers::refusal::{Module, Reason, Refusal};
use numbers::vec2::Vec2;
use schemes::side::Side;

impl ChannelDescription {
    // Whether each pixel has a sample of its own.
    fn is_full(&self) -> bool
        ensures { result ≡ full self.now }
    {
        self.sampling == Vec2(1, 1)
    }

    // A sampling factor has the range of a side.
    fn has_good_sampling(&self) -> bool
        ensures { result ≡ good_sampling self.now }
    {
        Side::both(self.sampling).is_some()
    }
}

impl LayerDescription {
    pub(crate) fn is_tiled(&self) -> bool
        ensures { result ≡ is_tiled self.now.blocks }
    {
        matches!(self.blocks, BlockDescription::Tiles(_))
    }

    // Whether the sampling divides the window's position and size.
    fn is_divided_by(&self, channel: &ChannelDescription) -> bool
        requires { good_sampling channel.now ≡ true }
        ensures { result ≡ divides_window self.now channel.now }
    {
        axis_divides(channel.sampling.0, self.layer_position.0, self.layer_size.0)
            && axis_divides(channel.sampling.1, self.layer_position.1, self.layer_size.1)
    }

    // By the first rule that a channel of the layer breaks.
    fn check_channel(&self, channel: &ChannelDescription) -> Result<(), Reason>
        ensures { optional number_of (result_err result) ≡ broken_channel_rule self.now channel.now }
    {
        if !channel.has_good_sampling() {
            Err(Reason::SamplingOutOfRange)
        } else if self.is_tiled() && !channel.is_full() {
            Err(Reason::SamplingOnTiles)
        } else if !self.is_divided_by(channel) {
            Err(Reason::SamplingNotDividing)
        } else if !channel.is_full() {
            Err(Reason::Subsampled)
        } else {
            Ok(())
        }
    }

    // By the first channel that breaks a rule.
    pub(crate) fn check_channels(&self, channels: &[ChannelDescription]) -> Result<(), Refusal>
        ensures { optional told (result_err result) ≡ broken_channel self.now 0 channels.now }
    {
        for (place, channel) in channels.iter().enumerate() {
            self.check_channel(channel).map_err(|reason| Refusal {
                reason,
                module: Module::Layers,
                place,
            })?;
        }
        Ok(())
    }
}

// The bytes that one pixel takes, over all channels, where there are not too many of them.
pub(crate) fn bytes_per_pixel(channels: &[ChannelDescription]) -> usize
    requires { length channels.now ≤ 1024 }
    ensures { result ≡ pixel_bytes channels.now }
{
    channels
        .iter()
        .map(|channel| channel.sample_type.bytes_per_sample())
        .sum()
}
