// Enumerating the blocks of a layer.
ghost use Rattle.std.specs.Prelude.{◌≡◌, ◌-◌, length, take, drop};
ghost use Rattle.layout.specs.Layers.{laid};
ghost use Rattle.layout.specs.Waiting.{in_order, waiting};
ghost use Rattle.std.specs.List.{slice_get};
ghost use Rattle.std.specs.Iterator.{at_most};

use crate::layer::Layer;
use crate::ordered::OrderedBlocks;
use blocks::order::ordered_block;
use blocks::tile::TileIndices;

impl Layer {
    // All blocks in the layer's line order, with their numbers.
    pub fn enumerate_ordered_blocks(&self) -> OrderedBlocks
        ensures { waiting result ≡ in_order (laid self.now) }
    {
        OrderedBlocks {
            layer: *self,
            front: 0,
            back: self.chunk_count(),
        }
    }
}

impl OrderedBlocks {
    // How many blocks wait.
    pub fn len(&self) -> usize
        ensures { result ≡ length (waiting self.now) }
    {
        self.back - self.front
    }

    // The first block that waits; nothing exactly where none does.
    pub fn take_front(&mut self) -> Option<(usize, TileIndices)>
        ensures answer { result ≡ slice_get (waiting self.old) 0 }
        ensures left { waiting self.new ≡ drop 1 (waiting self.old) }
    {
        if self.front == self.back {
            return None;
        }
        let block = self.at(self.front);
        self.front += 1;
        block
    }

    // The last block that waits; nothing exactly where none does.
    pub fn take_back(&mut self) -> Option<(usize, TileIndices)>
        ensures answer { result ≡ slice_get (waiting self.old) (length (waiting self.old) - 1) }
        ensures left { waiting self.new ≡ take (length (waiting self.old) - 1) (waiting self.old) }
    {
        if self.front == self.back {
            return None;
        }
        self.back -= 1;
        self.at(self.back)
    }

    fn at(&self, index: usize) -> Option<(usize, TileIndices)>
        ensures { result ≡ slice_get (in_order (laid self.now.layer)) index }
    {
        ordered_block(&self.layer.scheme(), self.layer.line_order(), index)
    }
}

// From the front, so that a `for` goes through the blocks in line order.
impl Iterator for OrderedBlocks {
    type Item = (usize, TileIndices);

    ghost next_gives = { λ before r after. (r ≡ slice_get (waiting before) 0) × (waiting after ≡ drop 1 (waiting before)) };

    ghost remaining = { λ blocks. at_most (length (waiting blocks)) };

    fn next(&mut self) -> Option<(usize, TileIndices)> {
        self.take_front()
    }
}

// From the back, so that `rev` goes through them against line order.
impl DoubleEndedIterator for OrderedBlocks {
    ghost next_back_gives = { λ before r after. (r ≡ slice_get (waiting before) (length (waiting before) - 1)) × (waiting after ≡ take (length (waiting before) - 1) (waiting before)) };

    fn next_back(&mut self) -> Option<(usize, TileIndices)> {
        self.take_back()
    }
}
