// Reading a whole case file into a plan.
#![tactic(auto)]

pub mod answers;
mod operating;
pub mod running;
