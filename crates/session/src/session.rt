// A session: what it holds, and what each command makes of it.
ghost use Rattle.std.specs.Prelude.{◌≡◌};
ghost use Rattle.numbers.specs.Refusals.{outcome_as};
ghost use Rattle.session.specs.Sessions.{added_to, held, laid_out, measured, shown, stepped};

use crate::answer::{Accepted, Answer};
use crate::channels::Channels;
use commands::command::Command;
use layout::attribute::{ChannelDescription, SampleType};
use layout::description::LayerDescription;
use layout::layer::Layer;
use numbers::refusal::{Module, Reason, Refusal};

#[derive(Drop)]
pub enum Session {
    Nothing(Channels),
    Laid(Layer),
}

fn add_channel(mut channels: Channels, sample_type: SampleType) -> (Session, Answer)
    ensures { shown result ≡ added_to channels sample_type }
{
    let answer = channels.add(sample_type).map(Accepted::Channels);
    (Session::Nothing(channels), answer)
}

// A layer is laid out only where its bytes can be told too.
fn lay_out(
    description: LayerDescription,
    channels: &[ChannelDescription],
) -> Result<(Layer, Accepted), Refusal>
    ensures { outcome_as measured result ≡ laid_out channels.now description }
{
    let layer = Layer::new(description, channels)?;
    let accepted = Accepted::Layer {
        chunk_count: layer.chunk_count(),
        total_pixel_bytes: layer.total_pixel_bytes()?,
    };
    Ok((layer, accepted))
}

// Takes one command. One that is not allowed now is refused first of all, and a refused one changes nothing.
pub fn step(session: Session, command: Command) -> (Session, Answer)
    ensures { shown result ≡ stepped (held session) command }
{
    match (session, command) {
        (Session::Nothing(channels), Command::C(sample_type)) => add_channel(channels, sample_type),
        (Session::Nothing(channels), Command::S(description) | Command::T(description)) => {
            match lay_out(description, channels.as_slice()) {
                Ok((layer, accepted)) => (Session::Laid(layer), Ok(accepted)),
                Err(refusal) => (Session::Nothing(channels), Err(refusal)),
            }
        }
        (session, _) => (
            session,
            Err(Refusal::new(Reason::NotAllowedNow, Module::Program)),
        ),
    }
}
