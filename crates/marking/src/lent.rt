// The lent tables of a call, filled for the sets of a trial, and then for the sets that stand.
ghost use Rattle.std.specs.Prelude.{◌≡◌, ◌+◌, ◌*◌, ◌<◌, ◌≤◌, true, false, length, drop, replicate, nat_lt, slice_index};
ghost use Rattle.model.specs.Loads.{fits};
ghost use Rattle.model.specs.Parts.{parts};
ghost use Rattle.model.specs.Sets.{has};
ghost use Rattle.meaning.specs.Cells.{over};
ghost use Rattle.meaning.specs.Models.{yes_no};
ghost use Rattle.meaning.specs.Problems.{needed, problem, short, without};
ghost use Rattle.meaning.specs.Recurrence.{Asked};
ghost use Rattle.meaning.specs.Used.{Pruned};
ghost use Rattle.tables.specs.Tables.{Prepared, SameRows, parts_of};
ghost use Rattle.marking.specs.Lent.{ahead_of, back_of, marks_ahead, marks_back};
ghost use Rattle.marking.specs.Striking.{Smaller};

use crate::counts::strike_count;
use model::goal::Goal;
use model::kind::Kind;
use model::parts::Parts;
use tables::asking::width_of;
use tables::table::{Table, ask, clear};
use tables::used::{fill_marks, prune, refill_marks};

// How many cells a table needs for the kinds under the goal.
fn needed_cells<G: Goal>(goal: &G, kinds: &[Kind]) -> usize
    requires { length kinds.now ≤ 32 }
    ensures { result ≡ needed (problem (G.Goal.means goal.now) kinds.now) }
{
    (kinds.len() + 1) * width_of(goal)
}

// Whether one of the two tables is shorter than the kinds need under the goal.
pub fn is_short<G: Goal>(goal: &G, kinds: &[Kind], forward: &[u8], backward: &[u8]) -> bool
    requires { length kinds.now ≤ 32 }
    ensures { result ≡ short (problem (G.Goal.means goal.now) kinds.now) (length forward.now) (length backward.now) }
{
    let needed = needed_cells(goal, kinds);
    forward.len() < needed || backward.len() < needed
}

// Whether a slice of so many values is too short for the kinds under the goal.
pub fn is_short_of<G: Goal>(goal: &G, kinds: &[Kind], values: usize) -> bool
    requires { length kinds.now ≤ 32 }
    ensures { result ≡ nat_lt values (needed (problem (G.Goal.means goal.now) kinds.now)) }
{
    values < needed_cells(goal, kinds)
}

// The table of backward marks over the lent slice: the last row of so many kinds has the goal's answers.
fn asked_table<'a, G: Goal>(goal: &G, many: usize, backward: &'a mut [u8]) -> Table<'a, u8>
    requires { (many + 1) * ((G.Goal.means goal.now).top + 1) ≤ length backward.old }
    ensures width { result.width ≡ (G.Goal.means goal.now).top + 1 }
    ensures asked { Asked yes_no (G.Goal.means goal.now).admits many result.width result.cells.now }
    ensures past { drop ((many + 1) * ((G.Goal.means goal.now).top + 1)) result.cells.now ≡ drop ((many + 1) * ((G.Goal.means goal.now).top + 1)) backward.old }
    ensures long { length result.cells.now ≡ length backward.old }
    ensures name { result.cells.ghost_name ≡ backward.entry.ghost_name }
{
    let mut back = Table::new(backward, width_of(goal));
    ask::<G>(&mut back, many, goal);
    back
}

// The marks of the parts.
pub fn mark_sets<G: Goal>(goal: &G, parts: Parts<'_>, forward: &mut [u8], backward: &mut [u8])
    requires few { length parts.kinds.now ≤ 32 }
    requires room { short (problem (G.Goal.means goal.now) parts.kinds.now) (length forward.old) (length backward.old) ≡ false }
    ensures forward { forward.new ≡ over (marks_ahead (G.Goal.means goal.now) (parts_of parts.entry)) forward.old }
    ensures backward { backward.new ≡ over (marks_back (G.Goal.means goal.now) (parts_of parts.entry)) backward.old }
{
    let mut ahead = Table::new(forward, width_of(goal));
    let mut back = asked_table(goal, parts.kinds.len(), backward);
    fill_marks(&mut ahead, &mut back, goal, parts);
}

// The counts that fitting loads of the parts use, and the marks of those; where there is no such load, the marks of the parts.
fn mark_used<G: Goal>(
    ahead: &mut Table<'_, u8>,
    back: &mut Table<'_, u8>,
    goal: &G,
    parts: Parts<'_>,
) -> Option<[u64; 32]>
    requires prepared { Prepared (G.Goal.means goal.now) parts ahead.old back.old }
    requires few { length parts.kinds.now ≤ 32 }
    ensures answer { Pruned (fits (G.Goal.means goal.now).admits (parts_of parts.entry)) (length parts.entry.kinds.now) result }
    ensures ahead { ahead.new.cells.now ≡ over (ahead_of (G.Goal.means goal.now) parts.entry.kinds.now (marks_ahead (G.Goal.means goal.now) (parts_of parts.entry)) result) ahead.old.cells.now }
    ensures back { back.new.cells.now ≡ over (back_of (G.Goal.means goal.now) parts.entry.kinds.now (marks_back (G.Goal.means goal.now) (parts_of parts.entry)) result) back.old.cells.now }
    ensures ahead_rows { SameRows ahead.old ahead.new }
    ensures back_rows { SameRows back.old back.new }
{
    let next = prune(ahead, back, goal, parts)?;
    let stand = Parts {
        kinds: parts.kinds,
        sets: &next[..parts.kinds.len()],
    };
    refill_marks(ahead, back, goal, parts.sets, stand);
    Some(next)
}

// The counts that fitting loads of the parts use, and the marks of those; where there is no such load, both tables cleared.
pub fn mark_first<G: Goal>(
    goal: &G,
    parts: Parts<'_>,
    forward: &mut [u8],
    backward: &mut [u8],
) -> Option<[u64; 32]>
    requires few { length parts.kinds.now ≤ 32 }
    requires room { short (problem (G.Goal.means goal.now) parts.kinds.now) (length forward.old) (length backward.old) ≡ false }
    ensures answer { Pruned (fits (G.Goal.means goal.now).admits (parts_of parts.entry)) (length parts.entry.kinds.now) result }
    ensures forward { forward.new ≡ over (ahead_of (G.Goal.means goal.now) parts.entry.kinds.now (replicate (needed (problem (G.Goal.means goal.now) parts.entry.kinds.now)) 0) result) forward.old }
    ensures backward { backward.new ≡ over (back_of (G.Goal.means goal.now) parts.entry.kinds.now (replicate (needed (problem (G.Goal.means goal.now) parts.entry.kinds.now)) 0) result) backward.old }
{
    let mut ahead = Table::new(forward, width_of(goal));
    let mut back = asked_table(goal, parts.kinds.len(), backward);
    let Some(next) = mark_used(&mut ahead, &mut back, goal, parts) else {
        let many = needed_cells(goal, parts.kinds);
        clear(&mut ahead, many);
        clear(&mut back, many);
        return None;
    };
    Some(next)
}

// The counts that fitting loads of the sets tried use, and the marks of those; where there is no such load, the marks of the standing sets.
pub fn mark_again<G: Goal>(
    goal: &G,
    standing: Parts<'_>,
    tried: &[u64],
    forward: &mut [u8],
    backward: &mut [u8],
) -> Option<[u64; 32]>
    requires few { length standing.kinds.now ≤ 32 }
    requires room { short (problem (G.Goal.means goal.now) standing.kinds.now) (length forward.old) (length backward.old) ≡ false }
    requires same { length tried.now ≡ length standing.kinds.now }
    ensures answer { Pruned (fits (G.Goal.means goal.now).admits (parts standing.entry.kinds.now tried.now)) (length standing.entry.kinds.now) result }
    ensures forward { forward.new ≡ over (ahead_of (G.Goal.means goal.now) standing.entry.kinds.now (marks_ahead (G.Goal.means goal.now) (parts_of standing.entry)) result) forward.old }
    ensures backward { backward.new ≡ over (back_of (G.Goal.means goal.now) standing.entry.kinds.now (marks_back (G.Goal.means goal.now) (parts_of standing.entry)) result) backward.old }
{
    let trial = Parts {
        kinds: standing.kinds,
        sets: tried,
    };
    let mut ahead = Table::new(forward, width_of(goal));
    let mut back = asked_table(goal, trial.kinds.len(), backward);
    let Some(next) = mark_used(&mut ahead, &mut back, goal, trial) else {
        fill_marks(&mut ahead, &mut back, goal, standing);
        return None;
    };
    Some(next)
}

// The counts that fitting loads of the standing sets use when they have another count than this at this place, and the marks of those; where
// there is no such load, the marks of the standing sets.
pub fn mark_without<G: Goal>(
    goal: &G,
    standing: Parts<'_>,
    at: usize,
    count: u64,
    forward: &mut [u8],
    backward: &mut [u8],
) -> Option<[u64; 32]>
    requires few { length standing.kinds.now ≤ 32 }
    requires room { short (problem (G.Goal.means goal.now) standing.kinds.now) (length forward.old) (length backward.old) ≡ false }
    requires place { at < length standing.kinds.now }
    requires small { count < 64 }
    requires holds { has (slice_index standing.sets.now at) count ≡ true }
    ensures answer { Pruned (without at count (fits (G.Goal.means goal.now).admits (parts_of standing.entry))) (length standing.entry.kinds.now) result }
    ensures smaller { Smaller (length standing.entry.kinds.now) standing.entry.sets.now result }
    ensures forward { forward.new ≡ over (ahead_of (G.Goal.means goal.now) standing.entry.kinds.now (marks_ahead (G.Goal.means goal.now) (parts_of standing.entry)) result) forward.old }
    ensures backward { backward.new ≡ over (back_of (G.Goal.means goal.now) standing.entry.kinds.now (marks_back (G.Goal.means goal.now) (parts_of standing.entry)) result) backward.old }
{
    let trial = strike_count(standing.sets, at, count);
    let tried = &trial[..standing.sets.len()];
    mark_again(goal, standing, tried, forward, backward)
}
