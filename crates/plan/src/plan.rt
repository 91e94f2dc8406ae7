// A plan: which counts stand.
ghost use Rattle.std.specs.Prelude.{◌≡◌, length};
ghost use Rattle.fixed_list.specs.FixedLists.{in_use};
ghost use Rattle.meaning.specs.View.{Inside};

use fixed_list::FixedList;
use model::case::Case;

pub mod branching;
pub mod history;
mod opening;
pub mod ruling;
pub mod seeking;
pub mod settling;
pub mod telling;

// A plan is blank over its goal while its case has no kinds; then it is settled, and `standing` has the standing set of each kind.
// `noted` has the sets that each open branch noted, the latest last. (The lent tables are no part of it, and stay two parameters of each call:
// a struct of two `&mut` would ask of each contract to say that it still lends the same slices.)
#[derive(Drop)]
pub struct Plan<G> {
    goal: G,
    case: Case,
    standing: [u64; 32],
    noted: FixedList<[u64; 32], 8>,
    ghost full: { length standing ≡ 32 },
    ghost inside: { ∥ Inside case.kinds.many standing (in_use noted) (length (in_use noted)) ∥₁ },
}
