// The blocks of a layer in line order, taken from either end. The struct stands alone for the sake of its facts.
ghost use Rattle.std.specs.Prelude.{◌≤◌};
ghost use Rattle.layout.specs.Layers.{laid};
ghost use Rattle.schemes.specs.Blocks.{chunks_in};

use crate::layer::Layer;

pub mod takes;

// From `front` on, and before `back`, the blocks wait.
#[derive(Clone, Copy)]
pub struct OrderedBlocks {
    layer: Layer,
    front: usize,
    back: usize,
    ghost between: { front ≤ back },
    ghost within: { back ≤ chunks_in (laid layer).scheme },
}
