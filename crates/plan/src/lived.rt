// What a history of calls left.
use crate::branch::OpenBranches;
use model::refusal::Refusal;

// How many counts stood after the settle, the tally after the last call, and the branches that are still open.
pub struct Lived<V> {
    pub counts: u32,
    pub tally: Result<V, Refusal>,
    pub branches: OpenBranches,
}
