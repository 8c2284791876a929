// Layers: their descriptions, how one is accepted or refused, and the bytes that it takes.
#![tactic(auto)]

pub mod attribute;
pub mod channel;
pub mod description;
pub mod layer;
pub mod ordered;
mod window;
pub mod worked;
