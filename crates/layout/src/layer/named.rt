// Blocks of a layer by their prefixes and coordinates.
ghost use Rattle.std.specs.Prelude.{◌≡◌};
ghost use Rattle.layout.specs.Layers.{laid};
ghost use Rattle.layout.specs.Prefixes.{layer_buffer, layer_written};
ghost use Rattle.numbers.specs.Refusals.{outcome};
ghost use Rattle.prefixes.specs.Bytes.{ComesBackFor, prefix_read};
ghost use Rattle.prefixes.specs.Lookup.{looked_up};

use crate::layer::Layer;
use numbers::refusal::Refusal;
use prefixes::coordinates::BlockCoordinates;
use prefixes::prefix::Prefix;
use schemes::scheme::Scheme;

impl Layer {
    // The number of the block that has the coordinates.
    pub fn lookup(&self, coordinates: BlockCoordinates) -> Result<usize, Refusal>
        ensures { outcome result ≡ looked_up (laid self.now).scheme (laid self.now).position coordinates }
    {
        self.positioned.lookup(coordinates)
    }

    // Writes the prefix of the block with a number, and answers how many bytes that took. A refusal writes nothing.
    pub fn write_prefix(
        &self,
        number: usize,
        data_length: usize,
        buffer: &mut [u8],
    ) -> Result<usize, Refusal>
        ensures answer { outcome result ≡ layer_written (laid self.now) number data_length buffer.old }
        ensures buffer { buffer.new ≡ layer_buffer (laid self.now) number data_length buffer.old }
        ensures back { ComesBackFor (laid self.now).scheme (laid self.now).position number data_length result buffer.new }
    {
        self.positioned.write_prefix(number, data_length, buffer)
    }

    // Reads a prefix as the layer's blocks have them.
    pub fn read_prefix(&self, bytes: &[u8]) -> Result<Prefix, Refusal>
        ensures { outcome result ≡ prefix_read (laid self.now).scheme.naming bytes.now }
    {
        Prefix::read(self.positioned.scheme.naming(), bytes)
    }
}
