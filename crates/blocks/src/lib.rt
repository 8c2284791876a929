// The blocks of a layer: their numbers, their bounds, and the order in which they stand in a file.
#![tactic(auto)]

pub mod block;
pub mod bounds;
mod cut;
pub mod line_order;
pub mod numbering;
pub mod order;
pub mod pixels;
pub mod tile;
pub mod tile_indices;
