// The one place where a goal is asked.
ghost use Rattle.std.specs.Prelude.{◌≡◌, ◌+◌, ◌≤◌};

use model::goal::Goal;

// Whether the goal admits the total b.
pub(crate) fn is_admitted<G: Goal>(goal: &G, b: usize) -> bool
    ensures { result ≡ (G.Goal.means goal.now).admits b }
{
    goal.admits(b as u64)
}

// How many totals there are from 0 to the goal's top: the width of its tables.
pub fn width_of<G: Goal>(goal: &G) -> usize
    ensures value { result ≡ (G.Goal.means goal.now).top + 1 }
    ensures low { result ≤ 4096 }
{
    goal.top() as usize + 1
}
