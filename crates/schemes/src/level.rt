// One level of a layer, and how the blocks of a layer are named.
use numbers::vec2::Vec2;

// The level's pair, how often each side was halved, and its sides in pixels.
#[derive(Clone, Copy, PartialEq, Eq, Debug)]
pub struct Level {
    pub pair: Vec2<usize>,
    pub width: usize,
    pub height: usize,
}

// Blocks are named by their first line, or by their column, row and level pair.
#[derive(Clone, Copy, PartialEq, Eq, Debug)]
pub enum Naming {
    Line,
    Tile,
}
