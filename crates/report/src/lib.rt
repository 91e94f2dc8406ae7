// The lines that the program prints. The bytes of each are pinned by its `shown`.
#![tactic(auto)]

pub mod counts;
pub mod lines;
