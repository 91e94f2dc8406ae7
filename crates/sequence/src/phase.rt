// How far a file has come.
ghost use Rattle.std.specs.Prelude.{◌≡◌};
ghost use Rattle.fields.specs.Reading.{said};
ghost use Rattle.sequence.specs.Sequence.{follow, is_done, owes as owedBy};

use fields::field::Field;

// Before its goal, at it or at its stride (with the place of the band or list), among the rule-outs, or past the end field.
#[derive(Clone, Copy)]
pub enum Phase {
    Kinds,
    Goal(usize),
    Strided(usize),
    Rules,
    Done,
}

impl Phase {
    // The phase after a field at a place, if the field is in sequence.
    pub fn after(self, place: usize, field: Field<'_>) -> Option<Phase>
        ensures { result ≡ follow self place (said field.entry) }
    {
        match (self, field) {
            (Phase::Kinds, Field::Kind { .. }) => Some(Phase::Kinds),
            (Phase::Kinds, Field::Band { .. } | Field::List(_)) => Some(Phase::Goal(place)),
            (Phase::Goal(goal), Field::Stride { .. }) => Some(Phase::Strided(goal)),
            (Phase::Goal(_) | Phase::Strided(_) | Phase::Rules, Field::RuleOut { .. }) => Some(
                Phase::Rules,
            ),
            (Phase::Goal(_) | Phase::Strided(_) | Phase::Rules, Field::End) => Some(Phase::Done),
            _ => None,
        }
    }

    // The place of the goal that is to be settled before this field.
    pub fn owes(self, field: Field<'_>) -> Option<usize>
        ensures { result ≡ owedBy self (said field.entry) }
    {
        match (self, field) {
            (Phase::Goal(_), Field::Stride { .. }) => None,
            (Phase::Goal(goal) | Phase::Strided(goal), _) => Some(goal),
            _ => None,
        }
    }

    // Whether the end field has been read.
    pub fn is_done(self) -> bool
        ensures { result ≡ is_done self }
    {
        matches!(self, Phase::Done)
    }
}
