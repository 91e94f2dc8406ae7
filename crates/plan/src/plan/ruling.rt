// Ruling out a count.
ghost use Rattle.std.specs.Prelude.{◌≡◌, length};
ghost use Rattle.model.specs.Answers.{answer_of};
ghost use Rattle.meaning.specs.Life.{backward_marks, forward_marks, marked, Called};
ghost use Rattle.meaning.specs.Register.{rule_out as RuleOut};
ghost use Rattle.plan.specs.Seen.{life};

use crate::plan::Plan;
use marking::counts::{held_in_all, in_range};
use marking::lent::mark_without;
use model::goal::Goal;
use model::parts::Parts;
use model::refusal::Refusal;
use model::sets::contains;

impl<G: Goal + Drop> Plan<G> {
    // Rules out a standing count: what then stands are the counts that the fitting loads without it use. Answers how many fewer stand.
    pub fn rule_out(
        &mut self,
        kind: u64,
        count: u64,
        forward: &mut [u8],
        backward: &mut [u8],
    ) -> Result<u32, Refusal>
        ensures does { Called (life G.Goal.means self.old) (RuleOut kind count (length forward.old) (length backward.old)) (life G.Goal.means self.new) (answer_of result) }
        ensures goal { self.new.goal ≡ self.old.goal }
        ensures forward { forward.new ≡ marked (forward_marks (life G.Goal.means self.new)) (answer_of result) forward.old }
        ensures backward { backward.new ≡ marked (backward_marks (life G.Goal.means self.new)) (answer_of result) backward.old }
    {
        // The slices are named apart: the checker does not follow parts that a `&mut self` lends and that are passed on whole.
        let parts = self.parts_for(forward, backward)?;
        let Parts { kinds, sets } = parts;
        if !in_range(kind, count, kinds.len()) {
            return Err(Refusal::OutOfRange);
        }
        let at = kind as usize - 1;
        if !contains(sets[at], count) {
            return Err(Refusal::NotStanding);
        }
        let standing = Parts { kinds, sets };
        let Some(next) = mark_without(&self.goal, standing, at, count, forward, backward) else {
            return Err(Refusal::NoLoad);
        };
        let before = held_in_all(sets);
        let after = held_in_all(&next[..sets.len()]);
        self.standing = next;
        Ok(before - after)
    }
}
