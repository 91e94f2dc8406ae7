// Tables of cells over lent slices: the passes that fill them, and what can be read off them.
#![tactic(auto)]

pub mod asking;
mod backward;
mod forward;
mod rows;
pub mod table;
pub mod tally;
pub mod used;
