// A plan over lent tables.
#![tactic(auto)]

pub mod branch;
pub mod lived;
pub mod plan;
