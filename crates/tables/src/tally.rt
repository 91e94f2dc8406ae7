// The tally of a plan: the forward pass, and then the admitted places of its last row.
ghost use Rattle.std.specs.Prelude.{◌≡◌, ◌+◌, ◌*◌, ◌<◌, ◌≤◌, map, length, get_or, filter};
ghost use Rattle.std.specs.List.{range_with_len};
ghost use Rattle.meaning.specs.Cells.{over, tallies, Ready};
ghost use Rattle.meaning.specs.Tallies.{join_of, tally_of};
ghost use Rattle.tables.specs.Tables.{SameRows, parts_of};

use crate::asking::is_admitted;
use crate::table::{Table, forward};
use measures::Measure;
use model::goal::Goal;
use model::parts::Parts;

// The cells of a row whose totals the goal admits, joined.
#[tactic(auto, using(meaning::proofs::Rows::fold_one))]
fn join_row<M: Measure, G: Goal>(row: &[M::Value], goal: &G) -> M::Value
    ensures { result ≡ join_of M.Measure.means (map (λ b. get_or row.now b M.Measure.means.zero) (filter (G.Goal.means goal.now).admits (range_with_len 0 (length row.now)))) }
{
    let mut sum = M::zero();
    for (b, cell) in row.iter().enumerate() {
        if is_admitted(goal, b) {
            sum = M::join(sum, *cell);
        }
    }
    sum
}

// The table filled with the tallies of the sets, and the tally of the fitting loads.
pub fn tally_loads<M: Measure, G: Goal>(
    table: &mut Table<'_, M::Value>,
    goal: &G,
    parts: Parts<'_>,
) -> M::Value
    requires ready { Ready parts.kinds.now parts.sets.now table.old.width table.old.cells.now }
    requires wide { table.old.width ≡ (G.Goal.means goal.now).top + 1 }
    ensures answer { result ≡ tally_of M.Measure.means (G.Goal.means goal.now).admits (parts_of parts.entry) }
    ensures cells { table.new.cells.now ≡ over (tallies M.Measure.means (parts_of parts.entry) table.old.width) table.old.cells.now }
    ensures rows { SameRows table.old table.new }
{
    forward::<M>(table, parts);
    join_row::<M, G>(table.row(parts.kinds.len()), goal)
}
