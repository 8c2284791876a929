// Whole numbers, pairs, logarithms and rounded quotients, refusals, unknown codes, and counting along one side of a layer.
#![tactic(auto)]

pub mod code;
pub mod counts;
pub mod logs;
pub mod refusal;
pub mod rounding;
pub mod vec2;
pub mod whole;
