// A list: 1 to 16 totals, strictly rising.
ghost use Rattle.std.specs.Prelude.{◌≡◌, ◌<◌, ◌≤◌, length};
ghost use Rattle.fixed_list.specs.FixedLists.{in_use};
ghost use Rattle.model.specs.Goals.{last_of};

use crate::goal::Goal;
use crate::goal::rising::RisingTotals;
use crate::limits::{MOST_LISTED, MOST_TOTAL};
use crate::refusal::Refusal;

#[derive(Clone, Copy)]
pub struct TotalList {
    listed: RisingTotals<MOST_LISTED>,
    ghost some: { 0 < length (in_use listed.list) },
    ghost small: { last_of (in_use listed.list) ≤ 4095 },
}

impl TotalList {
    ghost use Rattle.model.specs.Answers.{outcome_as};
    ghost use Rattle.model.specs.Goals.{list_made, one_of};
    ghost use Rattle.model.specs.ListGoals.{totals_in};

    // The goal that admits just the totals given.
    pub fn new(totals: &[u64]) -> Result<TotalList, Refusal>
        ensures { outcome_as (λ g. one_of (totals_in g)) result ≡ list_made totals.now }
    {
        let listed = RisingTotals::new(totals).ok_or(Refusal::BadTotals)?;
        let last = listed.last().ok_or(Refusal::BadTotals)?;
        if last > MOST_TOTAL {
            return Err(Refusal::BadTotals);
        }
        Ok(TotalList { listed })
    }

    // Its totals.
    pub fn totals(&self) -> &[u64]
        ensures { result.now ≡ totals_in self.now }
    {
        self.listed.totals()
    }
}

impl Goal for TotalList {
    ghost use Rattle.std.proofs.Common.{rules};
    ghost use Rattle.model.specs.Goals.{one_of};
    ghost use Rattle.model.specs.ListGoals.{totals_in};
    ghost use Rattle.model.specs.Rises.{in_below_last};

    ghost means = { λ s. one_of (totals_in s) };

    ghost bounded = { λ g b i. in_below_last (totals_in g) b g.listed.rises i };

    ghost low = { Prim.search rules };

    fn top(&self) -> u64 {
        self.listed.last().unwrap_or(0)
    }

    fn admits(&self, total: u64) -> bool {
        self.listed.contains(total)
    }
}
