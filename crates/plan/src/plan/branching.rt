// Branches: what is ruled out after one was opened can be withdrawn.
ghost use Rattle.std.specs.Prelude.{◌≡◌, length};
ghost use Rattle.model.specs.Answers.{GivenBack, answer_of, outcome_as, outcome_back};
ghost use Rattle.meaning.specs.Life.{backward_marks, forward_marks, remarked, Called};
ghost use Rattle.meaning.specs.Register.{branch as Opening, keep as Keeping, withdraw as Withdrawing};
ghost use Rattle.plan.specs.Seen.{life};

use crate::branch::Branch;
use crate::plan::Plan;
use marking::branches::{is_latest, number_after};
use marking::counts::held_in_all;
use marking::lent::mark_sets;
use model::goal::Goal;
use model::parts::Parts;
use model::refusal::{HandedBack, Refusal};

impl<G: Goal + Drop> Plan<G> {
    // Opens one more branch, which notes what stands.
    pub fn branch(&mut self) -> Result<Branch, Refusal>
        ensures does { Called (life G.Goal.means self.old) Opening (life G.Goal.means self.new) (outcome_as (λ b. b.number) result) }
        ensures goal { self.new.goal ≡ self.old.goal }
    {
        if self.is_blank() {
            return Err(Refusal::WrongStage);
        }
        if self.noted.is_full() {
            return Err(Refusal::BranchesFull);
        }
        let number = number_after(self.noted.len());
        self.noted.push(self.standing);
        Ok(Branch::of(number))
    }

    // Closes the latest branch; what was ruled out stays so. Answers how many branches are still open.
    pub(super) fn keep_number(&mut self, number: u64) -> Result<u32, Refusal>
        ensures does { Called (life G.Goal.means self.old) (Keeping number) (life G.Goal.means self.new) (answer_of result) }
        ensures goal { self.new.goal ≡ self.old.goal }
    {
        if self.is_blank() {
            return Err(Refusal::WrongStage);
        }
        if !is_latest(number, self.noted.len()) {
            return Err(Refusal::NotLatest);
        }
        let _ = self.noted.pop();
        Ok(self.noted.len() as u32)
    }

    // Closes the latest branch, which is given back; what was ruled out stays so. Answers how many branches are still open. A refusal hands
    // the branch back.
    pub fn keep(&mut self, given: Branch) -> Result<u32, HandedBack<Branch>>
        ensures does { Called (life G.Goal.means self.old) (Keeping given.number) (life G.Goal.means self.new) (outcome_back (λ n. n) result) }
        ensures back { GivenBack given result }
        ensures goal { self.new.goal ≡ self.old.goal }
    {
        let answer = self.keep_number(given.number());
        given.answered(answer)
    }

    // Closes the latest branch, and what stood when it opened stands again. Answers how many more counts stand.
    pub(super) fn withdraw_number(
        &mut self,
        number: u64,
        forward: &mut [u8],
        backward: &mut [u8],
    ) -> Result<u32, Refusal>
        ensures does { Called (life G.Goal.means self.old) (Withdrawing number (length forward.old) (length backward.old)) (life G.Goal.means self.new) (answer_of result) }
        ensures goal { self.new.goal ≡ self.old.goal }
        ensures forward { forward.new ≡ remarked (forward_marks (life G.Goal.means self.new)) (answer_of result) forward.old }
        ensures backward { backward.new ≡ remarked (backward_marks (life G.Goal.means self.new)) (answer_of result) backward.old }
    {
        // Only the number of kinds is kept: the checker does not follow parts that a `&mut self` lends where the plan changes later.
        let parts = self.parts_for(forward, backward)?;
        let many = parts.kinds.len();
        if !is_latest(number, self.noted.len()) {
            return Err(Refusal::NotLatest);
        }
        let before = held_in_all(&self.standing[..many]);
        let Some(row) = self.noted.pop() else {
            unreachable!()
        };
        let kinds = self.case.kinds();
        let noted = Parts {
            kinds,
            sets: &row[..kinds.len()],
        };
        mark_sets(&self.goal, noted, forward, backward);
        let after = held_in_all(noted.sets);
        self.standing = row;
        Ok(after - before)
    }

    // Closes the latest branch, which is given back, and what stood when it opened stands again. Answers how many more counts stand. A
    // refusal hands the branch back.
    pub fn withdraw(
        &mut self,
        given: Branch,
        forward: &mut [u8],
        backward: &mut [u8],
    ) -> Result<u32, HandedBack<Branch>>
        ensures does { Called (life G.Goal.means self.old) (Withdrawing given.number (length forward.old) (length backward.old)) (life G.Goal.means self.new) (outcome_back (λ n. n) result) }
        ensures back { GivenBack given result }
        ensures goal { self.new.goal ≡ self.old.goal }
        ensures forward { forward.new ≡ remarked (forward_marks (life G.Goal.means self.new)) (outcome_back (λ n. n) result) forward.old }
        ensures backward { backward.new ≡ remarked (backward_marks (life G.Goal.means self.new)) (outcome_back (λ n. n) result) backward.old }
    {
        let answer = self.withdraw_number(given.number(), forward, backward);
        given.answered(answer)
    }
}
