// A block of a layer, by its level, row and column.
use schemes::level::Level;

// The level, that level's position in the scheme, and the row and column there.
#[derive(Clone, Copy, PartialEq, Eq, Debug)]
pub struct Block {
    pub position: usize,
    pub level: Level,
    pub row: usize,
    pub column: usize,
}
