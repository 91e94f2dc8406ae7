// One field of a file: the sequence check, settle where it is owed, and the field's own operation.
ghost use Rattle.std.specs.Prelude.{◌≡◌, ◌<◌, length};
ghost use Rattle.fields.specs.Reading.{said};
ghost use Rattle.reader.specs.Seen.{seen};
ghost use Rattle.sequence.specs.Machines.{acting, settling};
ghost use Rattle.sequence.specs.Running.{turn as turn_of};
ghost use Rattle.outcomes.specs.Desk.{desk};
ghost use Rattle.casefile.specs.Listed.{listed};
ghost use Rattle.casefile.specs.Results.{Did, SettledAt, placed, turned};

use crate::answers::Answers;
use faults::fault::{FileFault, PlanFault};
use fields::field::Field;
use model::refusal::Refusal;
use reader::reader::Reader;
use sequence::phase::Phase;

// An operation's answer at its place in the file.
fn at(place: usize, answer: Result<u64, Refusal>) -> Result<u64, PlanFault>
    ensures { result ≡ placed place answer }
{
    answer.map_err(|refusal| PlanFault::new(place, refusal))
}

// Settles the goal at that place, if one is owed.
fn settle_owed(
    reader: &mut Reader,
    owed: Option<usize>,
    forward: &mut [u8],
    backward: &mut [u8],
) -> Result<u64, PlanFault>
    ensures { SettledAt owed (seen reader.new forward.new backward.new) result (settling desk (seen reader.old forward.old backward.old) owed) }
{
    match owed {
        None => Ok(0),
        Some(place) => at(place, reader.settle(forward, backward)),
    }
}

// A field at its place: it is in sequence, then the goal is settled where that is owed, then its own operation runs.
pub(crate) fn turn(
    phase: Phase,
    place: usize,
    field: Field<'_>,
    reader: &mut Reader,
    forward: &mut [u8],
    backward: &mut [u8],
    answers: &mut Answers,
) -> Result<Phase, FileFault>
    requires { length (listed answers.old) < 3277 }
    ensures { turn_of desk phase place (said field.entry) (seen reader.old forward.old backward.old) (listed answers.old) ≡ turned result (seen reader.new forward.new backward.new) (listed answers.new) }
{
    let Some(next) = phase.after(place, field) else {
        return Err(FileFault::OutOfSequence { place });
    };
    settle_owed(reader, phase.owes(field), forward, backward)?;
    let answer = at(place, reader.operate(field, forward, backward))?;
    answers.note(field, answer);
    Ok(next)
}
