// What the calls of a plan are made of: sets of counts, the numbers of branches, and the lent tables with the passes that fill them.
#![tactic(auto)]

pub mod branches;
pub mod counts;
pub mod lent;
