// Cases made from rows, and the worked cases as such rows.
#![tactic(auto)]

ghost use Rattle.std.specs.Prelude.{◌≡◌};
ghost use Rattle.model.specs.Answers.{outcome_as};
ghost use Rattle.model.specs.Cases.{allowed_parts, kinds_in};
ghost use Rattle.samples.specs.Rows.{case_made};

use model::case::Case;
use model::refusal::Refusal;

pub mod worked;

// What a kind is made from: its size, its price and the set of its allowed counts.
#[derive(Clone, Copy, PartialEq, Eq, Debug)]
pub struct Sample {
    pub size: u64,
    pub price: u64,
    pub allowed: u64,
}

// A case with a kind for each row, in order; the first row that is refused decides.
pub fn case_of(rows: &[Sample]) -> Result<Case, Refusal>
    ensures { outcome_as (λ c. allowed_parts (kinds_in c)) result ≡ case_made rows.now }
{
    let mut case = Case::new();
    for row in rows {
        case.add(row.size, row.price, row.allowed)?;
    }
    Ok(case)
}
