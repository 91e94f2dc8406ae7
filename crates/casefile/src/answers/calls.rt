// The calls of the list of answers.
ghost use Rattle.std.specs.Prelude.{◌≡◌, ◌<◌, [], length};
ghost use Rattle.fields.specs.Reading.{said};
ghost use Rattle.sequence.specs.Running.{noted};
ghost use Rattle.casefile.specs.Listed.{listed};

use crate::answers::Answers;
use fields::field::Field;
use fixed_list::FixedList;
use sequence::ruled::Ruled;

impl Answers {
    // No answers.
    pub fn new() -> Answers
        ensures { listed result ≡ [] }
    {
        Answers {
            rows: FixedList::new(Ruled::new(0, 0, 0)),
        }
    }

    // The answers, in file order.
    pub fn as_slice(&self) -> &[Ruled]
        ensures { result.now ≡ listed self.now }
    {
        self.rows.as_slice()
    }

    // Forgets the answers.
    pub fn clear(&mut self)
        ensures { listed self.new ≡ [] }
    {
        self.rows.clear();
    }

    // Notes the answer of a rule-out; other fields leave no note.
    pub(crate) fn note(&mut self, field: Field<'_>, answer: u64)
        requires { length (listed self.old) < 3277 }
        ensures { listed self.new ≡ noted (said field.entry) answer (listed self.old) }
    {
        if let Field::RuleOut { kind, count } = field {
            self.rows.push(Ruled::new(kind, count, answer));
        }
    }
}
