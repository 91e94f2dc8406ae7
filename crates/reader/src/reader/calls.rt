// The operations of the fields.
ghost use Rattle.std.specs.Prelude.{◌≡◌, ℕ, List};
ghost use Rattle.model.specs.Answers.{answer_of, option_as, outcome_as};
ghost use Rattle.fields.specs.Reading.{said};
ghost use Rattle.fields.specs.Values.{kind as kindField, rule_out_field as ruleOutField, stride as strideField};
ghost use Rattle.reader.specs.Holding.{fresh, goal_made, operate as operated, settle_held};
ghost use Rattle.reader.specs.Seen.{seen};
ghost use Rattle.reader.specs.Targets.{named_target};

use crate::goal::{FileGoal, Named};
use crate::naming::{band_of, list_of};
use crate::reader::Reader;
use fields::field::Field;
use model::case::Case;
use model::goal::stride::Stride;
use model::refusal::Refusal;
use plan::plan::Plan;

// The same answer in 64 bits.
fn widened(answer: Result<u32, Refusal>) -> Result<u64, Refusal>
    ensures { answer_of result ≡ answer_of answer }
{
    answer.map(u64::from)
}

impl Reader {
    // A reader that has read nothing.
    pub fn new() -> Reader
        ensures { (f b : List ℕ) → seen result f b ≡ fresh f b }
    {
        Reader {
            case: Case::new(),
            goal: None,
            plan: None,
        }
    }

    // The case, with the kinds added so far.
    pub fn case(&self) -> &Case
        ensures { result.now ≡ self.now.case }
    {
        &self.case
    }

    // The plan, once there is a goal.
    pub fn plan(&self) -> Option<&Plan<FileGoal>>
        ensures { option_as (λ p. p.now) result ≡ self.now.plan }
    {
        self.plan.as_ref()
    }

    // Adds a kind to the case.
    fn add_kind(&mut self, size: u16, price: u16, set: u64) -> Result<u64, Refusal>
        ensures { (f b : List ℕ) → (seen self.new f b, answer_of result) ≡ operated (seen self.old f b) (kindField size price set) }
    {
        self.case.add(u64::from(size), u64::from(price), set)
    }

    // Takes the band or list that was made, with a blank plan over it.
    fn take_goal(&mut self, made: Result<Named, Refusal>) -> Result<u64, Refusal>
        ensures { (f b : List ℕ) → (seen self.new f b, answer_of result) ≡ goal_made (seen self.old f b) (outcome_as named_target made) }
    {
        let goal = made?;
        self.goal = Some(goal);
        self.plan = Some(Plan::blank(FileGoal::Plain(goal)));
        Ok(0)
    }

    // Makes the stride over the band or list, with a blank plan over it.
    fn take_stride(&mut self, modulus: u16, remainder: u16) -> Result<u64, Refusal>
        ensures { (f b : List ℕ) → (seen self.new f b, answer_of result) ≡ operated (seen self.old f b) (strideField modulus remainder) }
    {
        let goal = self.goal.ok_or(Refusal::WrongStage)?;
        let stride = Stride::over(goal, u64::from(modulus), u64::from(remainder)).map_err(
            |back| back.refusal(),
        )?;
        self.plan = Some(Plan::blank(FileGoal::Strided(stride)));
        Ok(0)
    }

    // Settles the plan with the case.
    pub fn settle(&mut self, forward: &mut [u8], backward: &mut [u8]) -> Result<u64, Refusal>
        ensures { (seen self.new forward.new backward.new, answer_of result) ≡ settle_held (seen self.old forward.old backward.old) }
    {
        let Some(plan) = &mut self.plan else {
            return Err(Refusal::WrongStage);
        };
        widened(plan.settle(&self.case, forward, backward))
    }

    // Rules out a count of the plan.
    fn rule_out(
        &mut self,
        kind: u8,
        count: u8,
        forward: &mut [u8],
        backward: &mut [u8],
    ) -> Result<u64, Refusal>
        ensures { (seen self.new forward.new backward.new, answer_of result) ≡ operated (seen self.old forward.old backward.old) (ruleOutField kind count) }
    {
        let Some(plan) = &mut self.plan else {
            return Err(Refusal::WrongStage);
        };
        widened(plan.rule_out(u64::from(kind), u64::from(count), forward, backward))
    }

    // The operation of a field; the end has none.
    pub fn operate(
        &mut self,
        field: Field<'_>,
        forward: &mut [u8],
        backward: &mut [u8],
    ) -> Result<u64, Refusal>
        ensures { (seen self.new forward.new backward.new, answer_of result) ≡ operated (seen self.old forward.old backward.old) (said field.entry) }
    {
        match field {
            Field::Kind { size, price, set } => self.add_kind(size, price, set),
            Field::Band { low, high } => self.take_goal(band_of(low, high)),
            Field::List(part) => self.take_goal(list_of(part)),
            Field::Stride { modulus, remainder } => self.take_stride(modulus, remainder),
            Field::RuleOut { kind, count } => self.rule_out(kind, count, forward, backward),
            Field::End => Ok(0),
        }
    }
}
