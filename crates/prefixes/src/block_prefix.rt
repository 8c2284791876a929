// The prefix of the block with a number, written to a lent buffer.
ghost use Rattle.std.specs.Prelude.{◌≡◌};
ghost use Rattle.blocks.specs.Numbering.{all_blocks};
ghost use Rattle.numbers.specs.Refusals.{outcome};
ghost use Rattle.prefixes.specs.Bytes.{ComesBackFor, buffer_for, written_for};
ghost use Rattle.std.specs.List.{slice_get};

use crate::naming::prefix_size;
use crate::positioned::Positioned;
use crate::prefix::Prefix;
use crate::transfer::UNREADABLE;
use blocks::numbering::find_block;
use numbers::refusal::Refusal;
use schemes::scheme::Scheme;

impl<S: Scheme> Positioned<S> {
    // Answers how many bytes it wrote; later bytes are left, and a refusal writes nothing.
    pub fn write_prefix(
        &self,
        number: usize,
        data_length: usize,
        buffer: &mut [u8],
    ) -> Result<usize, Refusal>
        ensures answer { outcome result ≡ written_for (S.Scheme.meaning self.now.scheme) self.now.position data_length buffer.old (slice_get (all_blocks (S.Scheme.meaning self.now.scheme)) number) }
        ensures buffer { buffer.new ≡ buffer_for (S.Scheme.meaning self.now.scheme) self.now.position data_length buffer.old (slice_get (all_blocks (S.Scheme.meaning self.now.scheme)) number) }
        ensures back { ComesBackFor (S.Scheme.meaning self.now.scheme) self.now.position number data_length result buffer.new }
    {
        match find_block(&self.scheme, number) {
            Ok(block) => {
                let coordinates = self.coordinates(block)?;
                let prefix = Prefix {
                    coordinates,
                    data_length,
                };
                prefix.write(buffer)
            }
            Err(_) if buffer.len() < prefix_size(self.scheme.naming()) => Err(UNREADABLE),
            Err(refusal) => Err(refusal),
        }
    }
}
