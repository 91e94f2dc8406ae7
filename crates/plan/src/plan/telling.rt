// What a plan tells, without being changed.
ghost use Rattle.std.specs.Prelude.{◌≡◌, ◌+◌};
ghost use Rattle.model.specs.Answers.{answer_of, outcome_as};
ghost use Rattle.meaning.specs.Life.{Standing, Tallied};
ghost use Rattle.plan.specs.Seen.{life};

use crate::plan::Plan;
use marking::counts::is_kind;
use marking::lent::is_short_of;
use measures::Measure;
use model::goal::Goal;
use model::refusal::Refusal;
use tables::asking::width_of;
use tables::table::Table;
use tables::tally::tally_loads;

impl<G: Goal + Drop> Plan<G> {
    // The set of the counts of a kind that stand.
    pub fn standing(&self, kind: u64) -> Result<u64, Refusal>
        ensures tells { Standing (life G.Goal.means self.now) kind (answer_of result) }
        ensures same { self.exit.now ≡ self.entry.now }
    {
        let parts = self.parts()?;
        if !is_kind(kind, parts.kinds.len()) {
            return Err(Refusal::OutOfRange);
        }
        Ok(parts.sets[kind as usize - 1])
    }

    // The tally of the fitting loads of standing counts. Place (i, b) of the values then holds the tally of the choices of standing
    // counts for kinds 1 to i that total b.
    pub fn tally<M: Measure>(&self, values: &mut [M::Value]) -> Result<M::Value, Refusal>
        ensures tells { Tallied M.Measure.means (life G.Goal.means self.now) values.old values.new (outcome_as (λ v. v) result) }
        ensures same { self.exit.now ≡ self.entry.now }
    {
        let parts = self.parts()?;
        if is_short_of(&self.goal, parts.kinds, values.len()) {
            return Err(Refusal::TooShort);
        }
        let mut table = Table::new(values, width_of(&self.goal));
        Ok(tally_loads::<M, G>(&mut table, &self.goal, parts))
    }
}
