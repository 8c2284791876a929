// Questions asked many times over, for measuring. Each answers a sum over its answers, so that none can be left out.
use arrayvec::ArrayVec;
use blocks::bounds::IntegerBounds;
use blocks::numbering::find_block;
use blocks::pixels::bounds_of_block;
use blocks::tile::TileCoordinates;
use layout::layer::Layer;
use numbers::refusal::Refusal;
use prefixes::positioned::Positioned;
use schemes::chunk_count::compute_chunk_count;

const SAMPLES: usize = 1024;

#[derive(Clone, Copy)]
pub(crate) enum Repeated {
    Count,
    Enumerate,
    Bounds,
    Tiles,
    Lookups,
}

impl Repeated {
    pub(crate) fn read(word: &str) -> Option<Repeated> {
        Some(match word {
            "count" => Repeated::Count,
            "enumerate" => Repeated::Enumerate,
            "bounds" => Repeated::Bounds,
            "tiles" => Repeated::Tiles,
            "lookups" => Repeated::Lookups,
            _ => return None,
        })
    }

    pub(crate) fn ask(self, layer: &Layer, times: usize) -> usize {
        let scheme = layer.scheme();
        match self {
            Repeated::Count => total(times, |_| compute_chunk_count(&scheme)),
            Repeated::Enumerate => total(times, |_| enumerated(layer)),
            Repeated::Bounds => total(times, |i| width(bounds_of_block(&scheme, sample(layer, i)))),
            Repeated::Tiles => tiles(layer, times),
            Repeated::Lookups => {
                let image = Positioned {
                    scheme,
                    position: layer.position(),
                };
                total(times, |i| {
                    image
                        .block_coordinates(sample(layer, i))
                        .and_then(|coordinates| layer.lookup(coordinates))
                        .unwrap_or(0)
                })
            }
        }
    }
}

// The sum of what is answered to a question that is asked so many times.
fn total<F: FnMut(usize) -> usize>(times: usize, ask: F) -> usize
    requires { (state : F) (x : _) → F.pre state x }
{
    (0..times).map(ask).fold(0usize, usize::wrapping_add)
}

// The number of a block for each of the samples, spread over all blocks.
fn sample(layer: &Layer, index: usize) -> usize {
    let blocks = layer.chunk_count();
    if blocks <= SAMPLES {
        index % blocks.max(1)
    } else {
        (index % SAMPLES).wrapping_mul(blocks / SAMPLES)
    }
}

fn width(bounds: Result<IntegerBounds, Refusal>) -> usize {
    bounds.map_or(0, |bounds| bounds.size.0)
}

fn enumerated(layer: &Layer) -> usize {
    layer
        .enumerate_ordered_blocks()
        .fold(0usize, |sum, (number, tile)| {
            sum.wrapping_add(number).wrapping_add(tile.size.0)
        })
}

// Tile indices are made before, since the question is what they lead to.
fn tiles(layer: &Layer, times: usize) -> usize {
    let scheme = layer.scheme();
    let blocks = (0..SAMPLES).filter_map(|i| find_block(&scheme, sample(layer, i)).ok());
    // There is room for them all, so that none is left out.
    let mut asked = ArrayVec::<TileCoordinates<usize>, SAMPLES>::new();
    if asked
        .extend(blocks.map(|block| block.tile_coordinates()))
        .is_err()
    {
        return 0;
    }
    total(times / SAMPLES, |_| {
        asked.as_slice().iter().fold(0usize, |sum, tile| {
            sum.wrapping_add(width(layer.get_absolute_block_pixel_coordinates(*tile)))
        })
    })
}
