// What the calls of a settled plan begin with.
ghost use Rattle.std.specs.Prelude.{◌≡◌, ◌≤◌, length, IfOk};
ghost use Rattle.model.specs.Answers.{outcome_as};
ghost use Rattle.plan.specs.Opening.{lent, shown, ready};
ghost use Rattle.plan.specs.Seen.{life};

use crate::plan::Plan;
use marking::lent::is_short;
use model::goal::Goal;
use model::parts::Parts;
use model::refusal::Refusal;

impl<G: Goal + Drop> Plan<G> {
    // The kinds with the sets that stand; refused while the plan is blank.
    pub(super) fn parts(&self) -> Result<Parts<'_>, Refusal>
        ensures parts { outcome_as lent result ≡ shown (life G.Goal.means self.now) }
        ensures few { IfOk result (λ ps. length ps.kinds.now ≤ 32) }
    {
        let kinds = self.case.kinds();
        if kinds.is_empty() {
            return Err(Refusal::WrongStage);
        }
        Ok(Parts {
            kinds,
            sets: &self.standing[..kinds.len()],
        })
    }

    // The same for a call that is lent two tables; refused too where one of them is short.
    pub(super) fn parts_for(&self, forward: &[u8], backward: &[u8]) -> Result<Parts<'_>, Refusal>
        ensures parts { outcome_as lent result ≡ ready (life G.Goal.means self.now) (length forward.now) (length backward.now) }
        ensures few { IfOk result (λ ps. length ps.kinds.now ≤ 32) }
    {
        let parts = self.parts()?;
        if is_short(&self.goal, parts.kinds, forward, backward) {
            return Err(Refusal::TooShort);
        }
        Ok(parts)
    }
}
