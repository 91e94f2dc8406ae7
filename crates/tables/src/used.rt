// Which counts the fitting loads use, from the forward and the backward marks.
ghost use Rattle.std.specs.Prelude.{◌≡◌, ℕ, ◌+◌, ◌*◌, ◌<◌, ◌≤◌, ◌&&◌, ◌||◌, length, take, Decides, ◌==◌, bit_and, bit_or, fold, slice_index};
ghost use Rattle.std.specs.List.{zip};
ghost use Rattle.model.specs.Loads.{fits};
ghost use Rattle.meaning.specs.Problems.{support, uses};
ghost use Rattle.meaning.specs.Marks.{Meets};
ghost use Rattle.model.specs.Sets.{has, set_of};
ghost use Rattle.meaning.specs.Used.{Pruned};
ghost use Rattle.tables.specs.Tables.{Filled, HoldMarks, Marked, Prepared, parts_of};

use crate::rows::blocks;
use crate::table::{Table, backward, forward};
use measures::yes_no::YesNo;
use model::goal::Goal;
use model::parts::Parts;
use model::sets::contains;

// 1 where some place has both marks of two rows, and else 0: one pass without a branch.
fn met(ahead: &[u8], back: &[u8]) -> u8
    ensures { result ≡ fold (λ any p. bit_or any (bit_and p.0 p.1)) 0 (zip ahead.now back.now) }
{
    ahead
        .iter()
        .zip(back)
        .fold(0, |any, (x, y)| any | (*x & *y))
}

// Whether, of two rows of marks, some place has both.
fn meet(ahead: &[u8], back: &[u8]) -> bool
    requires { (b : ℕ) → b < length back.now → (slice_index ahead.now b ≤ 1) × (slice_index back.now b ≤ 1) }
    ensures { Decides result ((b : ℕ) × ((slice_index ahead.now b ≡ 1) × (slice_index back.now b ≡ 1))) }
{
    met(ahead, back) == 1
}

// Whether a forward mark, moved on by `blocks`, meets a backward mark of the row after.
fn meets(ahead: &[u8], back: &[u8], blocks: usize) -> bool
    requires same { length ahead.now ≡ length back.now }
    requires marks { (b : ℕ) → b < length back.now → (slice_index ahead.now b ≤ 1) × (slice_index back.now b ≤ 1) }
    ensures { Decides result ((b : ℕ) × Meets ahead.now back.now blocks b) }
{
    blocks < back.len() && meet(ahead, &back[blocks..])
}

// Two tables that hold the marks of the parts.
struct Marks<'a, G: Goal> {
    ahead: &'a Table<'a, u8>,
    back: &'a Table<'a, u8>,
    goal: &'a G,
    parts: Parts<'a>,
    ghost filled: { Filled (G.Goal.means goal.now) parts ahead.now back.now },
}

// Nothing is asked of the goal, which is only borrowed.
impl<G: Goal> Drop for Marks<'_, G> {
    fn drop(self) {
        let Marks {
            ahead: _,
            back: _,
            goal: _,
            parts: _,
        } = self;
    }
}

impl<G: Goal> Marks<'_, G> {
    // Whether some fitting load of standing counts has the count d for the kind at i.
    fn is_used(&self, i: usize, d: u8) -> bool
        requires here { i < length self.now.parts.kinds.now }
        requires small { d < 64 }
        ensures { result ≡ uses (fits (G.Goal.means self.now.goal.now).admits (parts_of self.now.parts)) i d }
    {
        let Parts { kinds, sets } = self.parts;
        let shift = blocks(kinds[i], d);
        contains(sets[i], u64::from(d)) && meets(self.ahead.row(i), self.back.row(i + 1), shift)
    }

    // The counts of the kind at i that some fitting load uses.
    fn used_set(&self, i: usize) -> u64
        requires { i < length self.now.parts.kinds.now }
        ensures { result ≡ set_of (uses (fits (G.Goal.means self.now.goal.now).admits (parts_of self.now.parts)) i) }
    {
        let mut found = 0;
        for d in 0..64 {
            if self.is_used(i, d) {
                found |= 1u64 << d;
            }
        }
        found
    }
}

// The used counts of every kind.
pub fn used_sets<G: Goal>(
    ahead: &Table<'_, u8>,
    back: &Table<'_, u8>,
    goal: &G,
    parts: Parts<'_>,
) -> [u64; 32]
    requires filled { Filled (G.Goal.means goal.now) parts ahead.now back.now }
    requires few { length parts.kinds.now ≤ 32 }
    ensures { take (length parts.entry.kinds.now) result ≡ support (length parts.entry.kinds.now) (fits (G.Goal.means goal.now).admits (parts_of parts.entry)) }
{
    let marks = Marks {
        ahead,
        back,
        goal,
        parts,
    };
    let mut next = [0u64; 32];
    for (i, set) in next[..parts.kinds.len()].iter_mut().enumerate() {
        *set = marks.used_set(i);
    }
    next
}

// Both tables filled with the marks of the parts. The last row of `back` holds the goal's answers already.
pub fn fill_marks<G: Goal>(
    ahead: &mut Table<'_, u8>,
    back: &mut Table<'_, u8>,
    goal: &G,
    parts: Parts<'_>,
)
    requires { Prepared (G.Goal.means goal.now) parts ahead.old back.old }
    ensures { Marked (G.Goal.means goal.now) parts.entry ahead.old back.old ahead.new back.new }
{
    forward::<YesNo>(ahead, parts);
    backward::<G>(back, goal, parts);
}

// Both tables, which hold the marks of the old sets, filled with the marks of the parts: no work where the sets are the same.
pub fn refill_marks<G: Goal>(
    ahead: &mut Table<'_, u8>,
    back: &mut Table<'_, u8>,
    goal: &G,
    old: &[u64],
    parts: Parts<'_>,
)
    requires prepared { Prepared (G.Goal.means goal.now) parts ahead.old back.old }
    requires held { HoldMarks (G.Goal.means goal.now) parts.kinds.now old.now ahead.old back.old }
    ensures { Marked (G.Goal.means goal.now) parts.entry ahead.old back.old ahead.new back.new }
{
    if old == parts.sets {
        return;
    }
    fill_marks(ahead, back, goal, parts);
}

// The tables filled, and the counts that fitting loads of the parts use; none where there is no such load.
pub fn prune<G: Goal>(
    ahead: &mut Table<'_, u8>,
    back: &mut Table<'_, u8>,
    goal: &G,
    parts: Parts<'_>,
) -> Option<[u64; 32]>
    requires prepared { Prepared (G.Goal.means goal.now) parts ahead.old back.old }
    requires few { length parts.kinds.now ≤ 32 }
    ensures answer { Pruned (fits (G.Goal.means goal.now).admits (parts_of parts.entry)) (length parts.entry.kinds.now) result }
    ensures marks { Marked (G.Goal.means goal.now) parts.entry ahead.old back.old ahead.new back.new }
{
    fill_marks::<G>(ahead, back, goal, parts);
    if back.at(0, 0) == 1 {
        Some(used_sets::<G>(ahead, back, goal, parts))
    } else {
        None
    }
}
