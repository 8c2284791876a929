// What stands before the data of each block in a file.
use crate::coordinates::BlockCoordinates;

// The block's coordinates, and how many bytes of data follow.
#[derive(Clone, Copy, PartialEq, Eq, Debug)]
pub struct Prefix {
    pub coordinates: BlockCoordinates,
    pub data_length: usize,
}
