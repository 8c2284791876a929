// Prefixes of blocks: the coordinates that name a block in its file, written, read, and looked up.
#![tactic(auto)]

pub mod block_prefix;
pub mod coordinates;
pub mod lookup;
pub mod naming;
pub mod positioned;
pub mod prefix;
pub mod transfer;
