// Level schemes: how the levels of a layer are listed and cut into blocks, and how many blocks that makes.
#![tactic(auto)]

pub mod any_scheme;
mod axis;
pub mod chunk_count;
pub mod find;
mod halved;
pub mod level;
pub mod levels;
pub mod mip;
pub mod pixel_count;
pub mod rip;
pub mod scan_lines;
pub mod scheme;
pub mod shrinking;
pub mod side;
pub mod sides;
pub mod single;
pub mod tiles;
