// The loads of a plan, one by one.
ghost use Rattle.std.specs.Prelude.{◌≡◌, ◌+◌, ◌*◌, ◌≤◌, if◌then◌else◌, length, take, is_ok, IfErr, OnOk, Some, None};
ghost use Rattle.meaning.specs.Cells.{Holds, over, tallies_back};
ghost use Rattle.meaning.specs.Life.{backward_marks, forward_marks};
ghost use Rattle.meaning.specs.Models.{yes_no};
ghost use Rattle.meaning.specs.Seeking.{Found, marked_for};
ghost use Rattle.model.specs.Parts.{parts};
ghost use Rattle.plan.specs.Seen.{life};
ghost use Rattle.plan.specs.Sought.{Barred, Searchable, load_said};
ghost use Rattle.search.specs.Seen.{Right, parts_in};

use crate::plan::Plan;
use marking::lent::mark_sets;
use model::goal::Goal;
use model::parts::Parts;
use model::refusal::Refusal;
use search::marks::Marks;
use tables::asking::width_of;

impl<G: Goal + Drop> Plan<G> {
    // Marks both tables for a search that writes to the slice for the load, or refuses it.
    fn mark_for(&self, load: &[u8], forward: &mut [u8], backward: &mut [u8]) -> Result<(), Refusal>
        ensures refused { IfErr result (Barred (life G.Goal.means self.now) (length forward.old) (length backward.old) load.now) }
        ensures searchable { OnOk result (Searchable (G.Goal.means self.now.goal) self.now.case.kinds.many self.now.case.kinds.items (length forward.old) (length backward.old) (length load.now)) }
        ensures forward { forward.new ≡ (if is_ok result then over (forward_marks (life G.Goal.means self.now)) forward.old else forward.old) }
        ensures backward { backward.new ≡ (if is_ok result then over (backward_marks (life G.Goal.means self.now)) backward.old else backward.old) }
    {
        let parts = self.parts_for(forward, backward)?;
        if load.len() != parts.kinds.len() {
            return Err(Refusal::LoadLength);
        }
        mark_sets(&self.goal, parts, forward, backward);
        Ok(())
    }

    // The backward marks of what stands, in the table that holds them.
    fn marks<'a>(&'a self, backward: &'a [u8]) -> Marks<'a>
        requires room { (self.now.case.kinds.many + 1) * ((G.Goal.means self.now.goal).top + 1) ≤ length backward.now }
        requires holds { Holds (tallies_back yes_no (G.Goal.means self.now.goal).admits (parts (take self.now.case.kinds.many self.now.case.kinds.items) (take self.now.case.kinds.many self.now.standing)) ((G.Goal.means self.now.goal).top + 1)) backward.now }
        ensures right { Right (G.Goal.means self.now.goal).admits result }
        ensures parts { parts_in result ≡ parts (take self.now.case.kinds.many self.now.case.kinds.items) (take self.now.case.kinds.many self.now.standing) }
        ensures many { length result.parts.kinds.now ≡ self.now.case.kinds.many }
    {
        let kinds = self.case.kinds();
        let sets = &self.standing[..kinds.len()];
        Marks {
            cells: backward,
            width: width_of(&self.goal),
            parts: Parts { kinds, sets },
        }
    }

    // Writes the first fitting load of standing counts.
    pub fn first_load(
        &self,
        load: &mut [u8],
        forward: &mut [u8],
        backward: &mut [u8],
    ) -> Result<(), Refusal>
        ensures finds { Found (life G.Goal.means self.now) None (length forward.old) (length backward.old) load.old load.new (load_said result load.new) }
        ensures same { self.exit.now ≡ self.entry.now }
        ensures forward { forward.new ≡ marked_for (forward_marks (life G.Goal.means self.now)) (load_said result load.new) forward.old }
        ensures backward { backward.new ≡ marked_for (backward_marks (life G.Goal.means self.now)) (load_said result load.new) backward.old }
    {
        self.mark_for(load, forward, backward)?;
        let marks = self.marks(backward);
        marks.first_load(&self.goal, load)
    }

    // Writes the first fitting load of standing counts that comes after the bytes in the slice, whatever they are.
    pub fn next_load(
        &self,
        load: &mut [u8],
        forward: &mut [u8],
        backward: &mut [u8],
    ) -> Result<(), Refusal>
        ensures finds { Found (life G.Goal.means self.now) (Some load.old) (length forward.old) (length backward.old) load.old load.new (load_said result load.new) }
        ensures same { self.exit.now ≡ self.entry.now }
        ensures forward { forward.new ≡ marked_for (forward_marks (life G.Goal.means self.now)) (load_said result load.new) forward.old }
        ensures backward { backward.new ≡ marked_for (backward_marks (life G.Goal.means self.now)) (load_said result load.new) backward.old }
    {
        self.mark_for(load, forward, backward)?;
        let marks = self.marks(backward);
        marks.next_load(&self.goal, load)
    }
}
