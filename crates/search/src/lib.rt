// The search for loads: the first that fits, and the first after given bytes, found by the backward marks without backtracking.
#![tactic(auto)]

pub mod marks;
pub mod search;
