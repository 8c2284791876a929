// What names a block in its file.
use blocks::tile::TileCoordinates;

// The fields of a prefix but the data length: a block's first line in the plane of the layer, or its tile and level.
#[derive(Clone, Copy, PartialEq, Eq, Debug)]
pub enum BlockCoordinates {
    Line { y: i32 },
    Tile(TileCoordinates<i32>),
}
