// Making and settling a plan.
ghost use Rattle.std.specs.Prelude.{◌≡◌, length, ◌==◌};
ghost use Rattle.model.specs.Answers.{answer_of};
ghost use Rattle.model.specs.Cases.{kinds_in};
ghost use Rattle.meaning.specs.Life.{backward_marks, blank as Blank, forward_marks, marked_first, Settled};
ghost use Rattle.plan.specs.Seen.{cells_for, life};

use crate::plan::Plan;
use fixed_list::FixedList;
use marking::counts::{allowed_sets, held_in_all};
use marking::lent::{is_short, mark_first};
use model::case::Case;
use model::goal::Goal;
use model::parts::Parts;
use model::refusal::Refusal;

impl<G: Goal + Drop> Plan<G> {
    // A plan over a goal, yet to be settled.
    pub fn blank(goal: G) -> Plan<G>
        ensures life { life G.Goal.means result ≡ Blank (G.Goal.means goal) }
        ensures goal { result.goal ≡ goal }
    {
        Plan {
            goal,
            case: Case::new(),
            standing: [0; 32],
            noted: FixedList::new([0; 32]),
        }
    }

    // Whether the plan is yet to be settled.
    pub fn is_blank(&self) -> bool
        ensures { result ≡ (self.now.case.kinds.many == 0) }
    {
        self.case.kinds().is_empty()
    }

    // The goal that the plan was made over.
    pub fn goal(&self) -> &G
        ensures { result.now ≡ self.now.goal }
    {
        &self.goal
    }

    // The plan takes a copy of the case, and those allowed counts stand that some fitting load uses; the answer is how many in all.
    pub fn settle(
        &mut self,
        case: &Case,
        forward: &mut [u8],
        backward: &mut [u8],
    ) -> Result<u32, Refusal>
        ensures does { Settled (life G.Goal.means self.old) (kinds_in case.now) (length forward.old) (length backward.old) (life G.Goal.means self.new) (answer_of result) }
        ensures goal { self.new.goal ≡ self.old.goal }
        ensures forward { forward.new ≡ marked_first (forward_marks (life G.Goal.means self.new)) (cells_for (G.Goal.means self.old.goal) (kinds_in case.now)) (answer_of result) forward.old }
        ensures backward { backward.new ≡ marked_first (backward_marks (life G.Goal.means self.new)) (cells_for (G.Goal.means self.old.goal) (kinds_in case.now)) (answer_of result) backward.old }
    {
        if !self.is_blank() {
            return Err(Refusal::WrongStage);
        }
        let kinds = case.kinds();
        if kinds.is_empty() {
            return Err(Refusal::NoKind);
        }
        if is_short(&self.goal, kinds, forward, backward) {
            return Err(Refusal::TooShort);
        }
        let many = kinds.len();
        let allowed = allowed_sets(kinds);
        let parts = Parts {
            kinds,
            sets: &allowed[..many],
        };
        let Some(next) = mark_first(&self.goal, parts, forward, backward) else {
            return Err(Refusal::NoLoad);
        };
        self.case = *case;
        self.standing = next;
        self.noted.clear();
        Ok(held_in_all(&next[..many]))
    }
}
