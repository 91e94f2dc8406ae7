// A band: every total from a low one to a high one.
ghost use Rattle.std.specs.Prelude.{◌≡◌, ◌≤◌};
ghost use Rattle.model.specs.Answers.{outcome_as};
ghost use Rattle.model.specs.Goals.{band_made, between};
ghost use Rattle.std.proofs.Common.{rules};

use crate::goal::Goal;
use crate::limits::MOST_TOTAL;
use crate::refusal::Refusal;

#[derive(Clone, Copy)]
pub struct Band {
    low: u64,
    high: u64,
    ghost ordered: { low ≤ high },
    ghost small: { high ≤ 4095 },
}

impl Band {
    // The band from `low` to `high`, both among its totals.
    pub fn new(low: u64, high: u64) -> Result<Band, Refusal>
        ensures { outcome_as (λ b. between b.low b.high) result ≡ band_made low high }
    {
        if low > high || high > MOST_TOTAL {
            return Err(Refusal::BadTotals);
        }
        Ok(Band { low, high })
    }

    // The lowest total.
    pub fn low(&self) -> u64
        ensures { result ≡ self.now.low }
    {
        self.low
    }

    // The highest total.
    pub fn high(&self) -> u64
        ensures { result ≡ self.now.high }
    {
        self.high
    }
}

impl Goal for Band {
    ghost means = { λ s. between s.low s.high };

    ghost bounded = { Prim.search rules };

    ghost low = { Prim.search rules };

    fn top(&self) -> u64 {
        Band::high(self)
    }

    fn admits(&self, total: u64) -> bool {
        (self.low..=self.high).contains(&total)
    }
}
