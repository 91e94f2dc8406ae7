// The band or list that a field names.
ghost use Rattle.std.specs.Prelude.{◌≡◌, ◌<◌, length, take};
ghost use Rattle.model.specs.Answers.{outcome_as};
ghost use Rattle.model.specs.Goals.{band_made, list_made};
ghost use Rattle.fields.specs.Reading.{totals as totalsIn};
ghost use Rattle.reader.specs.Targets.{named_target};

use crate::goal::Named;
use model::goal::band::Band;
use model::goal::list::TotalList;
use model::limits::MOST_LISTED;
use model::refusal::Refusal;

// The band of a field.
pub(crate) fn band_of(low: u16, high: u16) -> Result<Named, Refusal>
    ensures { outcome_as named_target result ≡ band_made low high }
{
    Band::new(u64::from(low), u64::from(high)).map(Named::Band)
}

// The totals of a field's bytes, at the front of an array.
fn totals_of(part: &[u8]) -> [u64; MOST_LISTED]
    requires { length part.now < 34 }
    ensures long { length result ≡ 16 }
    ensures front { take (length (totalsIn part.now)) result ≡ totalsIn part.now }
{
    let mut totals = [0; MOST_LISTED];
    let (pairs, _) = part.as_chunks::<2>();
    for (i, pair) in pairs.iter().enumerate() {
        totals[i] = u64::from(u16::from_be_bytes(*pair));
    }
    totals
}

// The list of the totals in a field's bytes.
pub(crate) fn list_of(part: &[u8]) -> Result<Named, Refusal>
    ensures { outcome_as named_target result ≡ list_made (totalsIn part.now) }
{
    let many = part.len() / 2;
    if many > MOST_LISTED {
        return Err(Refusal::BadTotals);
    }
    let totals = totals_of(part);
    TotalList::new(&totals[..many]).map(Named::List)
}
