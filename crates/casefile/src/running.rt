// A whole file.
ghost use Rattle.std.specs.Prelude.{◌≡◌, length, nat_lt};
ghost use Rattle.reader.specs.Seen.{seen};
ghost use Rattle.outcomes.specs.Outcomes.{Read};
ghost use Rattle.casefile.specs.Listed.{listed};
ghost use Rattle.casefile.specs.Results.{fault_of};

use crate::answers::Answers;
use crate::operating::turn;
use faults::fault::FileFault;
use faults::limits::MOST_BYTES;
use fields::cursor::Cursor;
use reader::reader::Reader;
use sequence::phase::Phase;

// Whether a file has more bytes than it may have.
fn is_too_long(file: &[u8]) -> bool
    ensures { result ≡ nat_lt 16384 (length file.now) }
{
    file.len() > MOST_BYTES
}

// Whether a byte of the file is left at the place.
fn is_left(file: &[u8], place: usize) -> bool
    ensures { result ≡ nat_lt place (length file.now) }
{
    place < file.len()
}

// Reads a whole file, whatever was read before: each operation runs as soon as its field has passed, up to the first fault. The answers
// of the rule-outs are left in `answers`, and the case and the plan in `reader`.
pub fn run(
    file: &[u8],
    reader: &mut Reader,
    forward: &mut [u8],
    backward: &mut [u8],
    answers: &mut Answers,
) -> Result<(), FileFault>
    ensures { Read file.now forward.old backward.old (fault_of result) (seen reader.new forward.new backward.new) (listed answers.new) }
{
    *reader = Reader::new();
    answers.clear();
    if is_too_long(file) {
        return Err(FileFault::TooLong);
    }
    let mut cursor = Cursor::new(file);
    let mut phase = Phase::Kinds;
    while !phase.is_done() {
        let place = cursor.place();
        let field = cursor.next()?;
        phase = turn(phase, place, field, reader, forward, backward, answers)?;
    }
    let place = cursor.place();
    if is_left(file, place) {
        return Err(FileFault::OutOfSequence { place });
    }
    Ok(())
}
