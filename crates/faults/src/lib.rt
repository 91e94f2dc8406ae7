// Faults of a case file: what is wrong, in which layer and at which place, and the line that says so.
#![tactic(auto)]

pub mod fault;
pub mod limits;
pub mod showing;
