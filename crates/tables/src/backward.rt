// The backward marks: which totals can still be brought to an admitted one by the kinds that are left.
ghost use Rattle.std.specs.Prelude.{◌≡◌, ℕ, ◌+◌, ◌*◌, ◌<◌, ◌≤◌, length, if◌then◌else◌, nat_lt, slice_index};
ghost use Rattle.model.specs.Sets.{has};
ghost use Rattle.model.specs.Parts.{part};
ghost use Rattle.meaning.specs.Cells.{Ready};
ghost use Rattle.meaning.specs.Models.{yes_no};
ghost use Rattle.meaning.specs.Recurrence.{last_row, row_before, Asked, FilledFrom};
ghost use Rattle.tables.specs.Tables.{parts_of};

use crate::asking::is_admitted;
use crate::rows::{blocks, join_part, zero_row};
use measures::Measure;
use measures::yes_no::YesNo;
use model::goal::Goal;
use model::kind::Kind;
use model::parts::Parts;
use model::sets::contains;

// One count of a kind, if it stands: the row after, moved back by size × count, is joined to the row. What lies past the row's end is left
// out. It is the forward pass's function of a count turned round; the two recurrences are two definitions, and what is shared is `join_part`.
fn join_count_back(after: &[u8], row: &mut [u8], kind: Kind, standing: u64, d: u8)
    requires same { length after.now ≡ length row.old }
    requires small { d < 64 }
    ensures { (b : ℕ) → b < length row.old → slice_index row.new b ≡ (if has standing d then (if nat_lt (b + kind.size * d) (length row.old) then yes_no.join (slice_index row.old b) (yes_no.chain (slice_index after.now (b + kind.size * d)) (yes_no.worth kind.price d)) else slice_index row.old b) else slice_index row.old b) }
{
    if contains(standing, u64::from(d)) {
        let shift = blocks(kind, d);
        let width = row.len();
        if shift < width {
            let worth = YesNo::worth(kind.price(), d);
            join_part::<YesNo>(&after[shift..], &mut row[..width - shift], worth);
        }
    }
}

// A row from the row after, count by count.
fn fill_row_back(after: &[u8], row: &mut [u8], kind: Kind, standing: u64)
    requires { length after.now ≡ length row.old }
    ensures { (b : ℕ) → b < length row.old → slice_index row.new b ≡ row_before yes_no (length row.old) (part kind standing) (λ c. slice_index after.now c) b }
{
    zero_row::<YesNo>(row);
    for d in 0..64u8 {
        join_count_back(after, row, kind, standing, d);
    }
}

// The last row: the goal is asked once for each total.
#[tactic(auto, unfolding(meaning::specs::Recurrence::last_row))]
pub(crate) fn fill_last_row<G: Goal>(row: &mut [u8], goal: &G)
    ensures { (b : ℕ) → b < length row.old → slice_index row.new b ≡ last_row yes_no (G.Goal.means goal.now).admits b }
{
    for (b, cell) in row.iter_mut().enumerate() {
        *cell = u8::from(is_admitted(goal, b));
    }
}

// The rows above the last one, which holds the goal's answers already: the goal is passed for what it means, and is not asked.
pub(crate) fn fill_back<G: Goal>(cells: &mut [u8], width: usize, goal: &G, parts: Parts<'_>)
    requires ready { Ready parts.kinds.now parts.sets.now width cells.old }
    requires asked { Asked yes_no (G.Goal.means goal.now).admits (length parts.kinds.now) width cells.old }
    ensures { FilledFrom yes_no (G.Goal.means goal.now).admits (parts_of parts.entry) width 0 cells.old cells.new }
{
    let Parts { kinds, sets } = parts;
    // (Tried: over the kinds zipped with the sets, seven goals stay open.)
    for (i, kind) in kinds.iter().enumerate().rev() {
        let (rest, done) = cells.split_at_mut((i + 1) * width);
        fill_row_back(&done[..width], &mut rest[i * width..], *kind, sets[i]);
    }
}
