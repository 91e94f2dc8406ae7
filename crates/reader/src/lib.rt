// What a case file is read into: a case, a goal and a plan over it; and the operation of each field.
#![tactic(auto)]

pub mod goal;
mod naming;
pub mod reader;
