// A layer that was accepted. It stands alone, since its facts take in all that its file imports.
ghost use Rattle.std.specs.Prelude.{◌≡◌, ◌≤◌};
ghost use Rattle.schemes.specs.Blocks.{chunks_in};
ghost use Rattle.schemes.specs.Schemes.{any_meaning};
ghost use Rattle.schemes.specs.Windows.{Placed};

use blocks::line_order::LineOrder;
use prefixes::positioned::Positioned;
use schemes::any_scheme::AnyScheme;

mod acceptance;
mod lines;
mod named;
mod pixels;
mod totals;

#[derive(Clone, Copy)]
pub struct Layer {
    positioned: Positioned<AnyScheme>,
    line_order: LineOrder,
    // As described, also where the layer is cut into tiles.
    lines_per_block: usize,
    // Over all channels.
    bytes_per_pixel: usize,
    chunk_count: usize,
    ghost placed: { Placed positioned.position (any_meaning positioned.scheme) },
    ghost lined: { (1 ≤ lines_per_block) × (lines_per_block ≤ 256) },
    ghost sampled: { 1 ≤ bytes_per_pixel },
    ghost counted: { chunk_count ≡ chunks_in (any_meaning positioned.scheme) },
}
