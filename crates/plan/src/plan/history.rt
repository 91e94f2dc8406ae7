// Whole histories: a settle, any list of calls, and a tally.
ghost use Rattle.std.specs.Prelude.{◌≡◌, map, min, length, Some};
ghost use Rattle.model.specs.Answers.{answer_of};
ghost use Rattle.model.specs.Cases.{kinds_in};
ghost use Rattle.meaning.specs.History.{WholeHistory, marked_by, tallied_by};
ghost use Rattle.meaning.specs.Life.{backward_marks, forward_marks, life_after, replies, Called, Remarks};
ghost use Rattle.meaning.specs.Register.{branch as Opening};
ghost use Rattle.plan.specs.Entries.{Untried, answers_in, asked, calls_in, calls_of, ending_of};
ghost use Rattle.plan.specs.Seen.{cells_for, life};

use crate::branch::OpenBranches;
use crate::lived::Lived;
use crate::plan::Plan;
use entries::{Call, Cells, Entry};
use measures::Measure;
use model::case::Case;
use model::goal::Goal;
use model::refusal::Refusal;

// How long the slices of the two tables are that a call with so many cells gets.
fn lengths(cells: Cells, forward: &[u8], backward: &[u8]) -> (usize, usize)
    ensures forward { result.0 ≡ min cells.forward (length forward.now) }
    ensures backward { result.1 ≡ min cells.backward (length backward.now) }
{
    (
        cells.forward.min(forward.len()),
        cells.backward.min(backward.len()),
    )
}

impl<G: Goal + Drop> Plan<G> {
    // Rules out a count, with so many cells of the tables.
    fn make_rule_out(
        &mut self,
        kind: u64,
        count: u64,
        cells: Cells,
        forward: &mut [u8],
        backward: &mut [u8],
    ) -> Result<u32, Refusal>
        ensures does { Called (life G.Goal.means self.old) (asked (length forward.old) (length backward.old) (Call.RuleOut kind count cells)) (life G.Goal.means self.new) (answer_of result) }
        ensures goal { self.new.goal ≡ self.old.goal }
        ensures forward { Remarks (forward_marks (life G.Goal.means self.old)) (forward_marks (life G.Goal.means self.new)) forward.old forward.new }
        ensures backward { Remarks (backward_marks (life G.Goal.means self.old)) (backward_marks (life G.Goal.means self.new)) backward.old backward.new }
    {
        let (f, b) = lengths(cells, forward, backward);
        self.rule_out(kind, count, &mut forward[..f], &mut backward[..b])
    }

    // Withdraws the branch of a number, with so many cells of the tables.
    fn make_withdraw(
        &mut self,
        number: u64,
        cells: Cells,
        forward: &mut [u8],
        backward: &mut [u8],
    ) -> Result<u32, Refusal>
        ensures does { Called (life G.Goal.means self.old) (asked (length forward.old) (length backward.old) (Call.Withdraw number cells)) (life G.Goal.means self.new) (answer_of result) }
        ensures goal { self.new.goal ≡ self.old.goal }
        ensures forward { Remarks (forward_marks (life G.Goal.means self.old)) (forward_marks (life G.Goal.means self.new)) forward.old forward.new }
        ensures backward { Remarks (backward_marks (life G.Goal.means self.old)) (backward_marks (life G.Goal.means self.new)) backward.old backward.new }
    {
        let (f, b) = lengths(cells, forward, backward);
        self.withdraw_number(number, &mut forward[..f], &mut backward[..b])
    }

    // Opens a branch; the plan knows it by its number.
    fn make_branch(&mut self) -> Result<u32, Refusal>
        ensures does { Called (life G.Goal.means self.old) Opening (life G.Goal.means self.new) (answer_of result) }
        ensures goal { self.new.goal ≡ self.old.goal }
    {
        let opened = self.branch()?;
        Ok(opened.spend() as u32)
    }

    // Makes one call. Tables that held the plan's marks hold them again.
    fn make(&mut self, call: Call, forward: &mut [u8], backward: &mut [u8]) -> Result<u32, Refusal>
        ensures does { Called (life G.Goal.means self.old) (asked (length forward.old) (length backward.old) call) (life G.Goal.means self.new) (answer_of result) }
        ensures goal { self.new.goal ≡ self.old.goal }
        ensures forward { Remarks (forward_marks (life G.Goal.means self.old)) (forward_marks (life G.Goal.means self.new)) forward.old forward.new }
        ensures backward { Remarks (backward_marks (life G.Goal.means self.old)) (backward_marks (life G.Goal.means self.new)) backward.old backward.new }
    {
        match call {
            Call::RuleOut { kind, count, cells } => {
                self.make_rule_out(kind, count, cells, forward, backward)
            }
            Call::Branch => self.make_branch(),
            Call::Keep { number } => self.keep_number(number),
            Call::Withdraw { number, cells } => {
                self.make_withdraw(number, cells, forward, backward)
            }
        }
    }

    // Makes the calls of the entries, one after the other, and writes each one's answer into its entry.
    fn make_all(&mut self, entries: &mut [Entry], forward: &mut [u8], backward: &mut [u8])
        ensures life { life G.Goal.means self.new ≡ life_after (life G.Goal.means self.old) (calls_in (length forward.old) (length backward.old) entries.old) }
        ensures goal { self.new.goal ≡ self.old.goal }
        ensures calls { calls_of entries.new ≡ calls_of entries.old }
        ensures answers { answers_in entries.new ≡ map Some (replies (life G.Goal.means self.old) (calls_in (length forward.old) (length backward.old) entries.old)) }
        ensures forward { Remarks (forward_marks (life G.Goal.means self.old)) (forward_marks (life G.Goal.means self.new)) forward.old forward.new }
        ensures backward { Remarks (backward_marks (life G.Goal.means self.old)) (backward_marks (life G.Goal.means self.new)) backward.old backward.new }
    {
        for entry in entries.iter_mut() {
            let answer = self.make(entry.call(), forward, backward);
            *entry = entry.answered(answer);
        }
    }

    // Settles a blank plan with a case, makes the calls of the entries, and tallies. Where settle is refused nothing more is done. The
    // branches still open are handed back.
    pub fn history<M: Measure>(
        &mut self,
        case: &Case,
        entries: &mut [Entry],
        values: &mut [M::Value],
        forward: &mut [u8],
        backward: &mut [u8],
    ) -> Result<Lived<M::Value>, Refusal>
        ensures tells { WholeHistory M.Measure.means (life G.Goal.means self.old) (kinds_in case.now) (length forward.old) (length backward.old) (calls_in (length forward.old) (length backward.old) entries.old) (length values.old) (life G.Goal.means self.new) (answers_in entries.new) (ending_of result) }
        ensures goal { self.new.goal ≡ self.old.goal }
        ensures entries { Untried (ending_of result) entries.old entries.new }
        ensures values { values.new ≡ tallied_by M.Measure.means (life G.Goal.means self.new) (ending_of result) values.old }
        ensures forward { forward.new ≡ marked_by (forward_marks (life G.Goal.means self.new)) (cells_for (G.Goal.means self.old.goal) (kinds_in case.now)) (ending_of result) forward.old }
        ensures backward { backward.new ≡ marked_by (backward_marks (life G.Goal.means self.new)) (cells_for (G.Goal.means self.old.goal) (kinds_in case.now)) (ending_of result) backward.old }
    {
        let counts = self.settle(case, forward, backward)?;
        self.make_all(entries, forward, backward);
        let tally = self.tally::<M>(values);
        Ok(Lived {
            counts,
            tally,
            branches: OpenBranches::of(self.noted.len()),
        })
    }
}
