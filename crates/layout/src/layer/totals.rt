// The bytes that a layer takes. Each total is refused where it passes 64 bits.
ghost use Rattle.std.specs.Prelude.{◌≡◌};
ghost use Rattle.layout.specs.Layers.{laid};
ghost use Rattle.layout.specs.Totals.{block_bytes, fitting, most_block_bytes, most_file_bytes, total_bytes};
ghost use Rattle.numbers.specs.Refusals.{outcome};
ghost use Rattle.schemes.specs.Blocks.{pixel_count};
ghost use Rattle.schemes.specs.Schemes.{any_meaning};

use crate::layer::Layer;
use numbers::refusal::{Module, Reason, Refusal};
use numbers::vec2::Vec2;
use schemes::any_scheme::AnyScheme;
use schemes::pixel_count::compute_pixel_count;
use schemes::scheme::Scheme;
use schemes::side::Side;

// At most, what a file keeps beside the pixels of a chunk.
const CHUNK_OVERHEAD: usize = 64;

const TOO_LARGE: Refusal = Refusal {
    reason: Reason::TotalTooLarge,
    module: Module::Program,
    place: 0,
};

// Each kind by itself, so that its levels are counted once, and not for each of them.
fn pixel_count(scheme: &AnyScheme) -> usize
    ensures { result ≡ pixel_count (any_meaning scheme.now) }
{
    match scheme {
        AnyScheme::ScanLines(s) => compute_pixel_count(s),
        AnyScheme::Single(s) => compute_pixel_count(s),
        AnyScheme::Mip(s) => compute_pixel_count(s),
        AnyScheme::Rip(s) => compute_pixel_count(s),
    }
}

impl Layer {
    // Stored without compression.
    pub fn total_pixel_bytes(&self) -> Result<usize, Refusal>
        ensures { outcome result ≡ fitting (total_bytes (laid self.now)) }
    {
        let pixels = pixel_count(&self.positioned.scheme);
        let bytes = pixels.checked_mul(self.bytes_per_pixel);
        bytes.ok_or(TOO_LARGE)
    }

    // A block of this width and height.
    pub fn block_byte_size(&self, size: Vec2<usize>) -> Result<usize, Refusal>
        ensures { outcome result ≡ fitting (block_bytes (laid self.now) size) }
    {
        let pixels = size.0.checked_mul(size.1).ok_or(TOO_LARGE)?;
        pixels.checked_mul(self.bytes_per_pixel).ok_or(TOO_LARGE)
    }

    // A block that is not clipped.
    pub fn max_block_byte_size(&self) -> Result<usize, Refusal>
        ensures { outcome result ≡ fitting (most_block_bytes (laid self.now)) }
    {
        self.block_byte_size(Side::pixels_of(self.positioned.scheme.block_size()))
    }

    // At most, in a file.
    pub fn max_pixel_file_bytes(&self) -> Result<usize, Refusal>
        ensures { outcome result ≡ fitting (most_file_bytes (laid self.now)) }
    {
        let pixels = self.total_pixel_bytes()?;
        let overhead = self.chunk_count.checked_mul(CHUNK_OVERHEAD);
        overhead
            .ok_or(TOO_LARGE)?
            .checked_add(pixels)
            .ok_or(TOO_LARGE)
    }
}
