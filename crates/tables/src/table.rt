// A table of (n+1) × (top+1) cells over a lent slice: cell (i, b) is at place i × width + b.
ghost use Rattle.std.specs.Prelude.{◌≡◌, ◌+◌, ◌*◌, ◌<◌, ◌≤◌, length, drop, replicate, slice_index_or, slice_range};
ghost use Rattle.meaning.specs.Cells.{over, tallies, tallies_back, Ready};
ghost use Rattle.meaning.specs.Models.{yes_no};
ghost use Rattle.meaning.specs.Recurrence.{Asked};
ghost use Rattle.tables.specs.Tables.{SameRows, parts_of};

use crate::backward::{fill_back, fill_last_row};
use crate::forward::fill;
use measures::Measure;
use model::goal::Goal;
use model::parts::Parts;

// The cells are lent by the caller; a table passes them whole to the functions that write them.
#[derive(Drop)]
pub struct Table<'a, T> {
    pub(crate) cells: &'a mut [T],
    pub(crate) width: usize,
}

impl<'a, T: Copy> Table<'a, T> {
    // A table over the slice, in rows of `width` cells.
    pub fn new(cells: &'a mut [T], width: usize) -> Table<'a, T>
        ensures width { result.width ≡ width }
        ensures cells { result.cells.now ≡ cells.old }
        ensures name { result.cells.ghost_name ≡ cells.entry.ghost_name }
    {
        Table { cells, width }
    }

    // Cell (i, b).
    pub fn at(&self, i: usize, b: usize) -> T
        requires { i * self.now.width + b < length self.now.cells.now }
        ensures { result ≡ slice_index_or self.now.cells.now (i * self.now.width + b) result }
    {
        self.cells[i * self.width + b]
    }

    // Row i.
    pub(crate) fn row(&self, i: usize) -> &[T]
        requires { (i + 1) * self.now.width ≤ length self.now.cells.now }
        ensures { result.now ≡ slice_range self.now.cells.now (i * self.now.width) (i * self.now.width + self.now.width) }
    {
        let start = i * self.width;
        &self.cells[start..start + self.width]
    }
}

// The forward pass over the whole table.
pub fn forward<M: Measure>(table: &mut Table<'_, M::Value>, parts: Parts<'_>)
    requires { Ready parts.kinds.now parts.sets.now table.old.width table.old.cells.now }
    ensures cells { table.new.cells.now ≡ over (tallies M.Measure.means (parts_of parts.entry) table.old.width) table.old.cells.now }
    ensures rows { SameRows table.old table.new }
{
    let width = table.width;
    fill::<M>(table.cells, width, parts);
}

// The goal's answers, into one row.
pub fn ask<G: Goal>(table: &mut Table<'_, u8>, row: usize, goal: &G)
    requires { (row + 1) * table.old.width ≤ length table.old.cells.now }
    ensures asked { Asked yes_no (G.Goal.means goal.now).admits row table.old.width table.new.cells.now }
    ensures past { drop ((row + 1) * table.old.width) table.new.cells.now ≡ drop ((row + 1) * table.old.width) table.old.cells.now }
    ensures rows { SameRows table.old table.new }
{
    let start = row * table.width;
    fill_last_row::<G>(&mut table.cells[start..start + table.width], goal);
}

// The backward pass over a table whose last row holds the goal's answers.
pub fn backward<G: Goal>(table: &mut Table<'_, u8>, goal: &G, parts: Parts<'_>)
    requires ready { Ready parts.kinds.now parts.sets.now table.old.width table.old.cells.now }
    requires wide { table.old.width ≡ (G.Goal.means goal.now).top + 1 }
    requires asked { Asked yes_no (G.Goal.means goal.now).admits (length parts.kinds.now) table.old.width table.old.cells.now }
    ensures cells { table.new.cells.now ≡ over (tallies_back yes_no (G.Goal.means goal.now).admits (parts_of parts.entry) table.old.width) table.old.cells.now }
    ensures rows { SameRows table.old table.new }
{
    let width = table.width;
    fill_back::<G>(table.cells, width, goal, parts);
}

// The first cells unmarked. (After `[..many]` of a field a proof does not know what the field holds.)
pub fn clear(table: &mut Table<'_, u8>, many: usize)
    requires { many ≤ length table.old.cells.now }
    ensures cells { table.new.cells.now ≡ over (replicate many 0) table.old.cells.now }
    ensures rows { SameRows table.old table.new }
{
    table.cells[0..many].fill(0);
}
