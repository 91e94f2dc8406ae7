// A stride over any other goal: the totals of that goal with a given remainder.
ghost use Rattle.std.specs.Prelude.{◌≡◌, ◌<◌};
ghost use Rattle.model.specs.Answers.{outcome_back, GivenBack};
ghost use Rattle.model.specs.Goals.{stride_made, strided};
ghost use Rattle.std.proofs.Common.{rules};

use crate::goal::Goal;
use crate::limits::MOST_MODULUS;
use crate::refusal::{HandedBack, Refusal};

#[derive(Drop)]
pub struct Stride<G> {
    below: G,
    modulus: u64,
    remainder: u64,
    ghost positive: { 0 < modulus },
    ghost within: { remainder < modulus },
}

impl<G: Goal> Stride<G> {
    // The totals of `below` whose remainder by `modulus` is `remainder`. A refusal hands the goal below back.
    pub fn over(below: G, modulus: u64, remainder: u64) -> Result<Stride<G>, HandedBack<G>>
        ensures made { outcome_back (λ s. strided s.modulus s.remainder (G.Goal.means s.below)) result ≡ stride_made modulus remainder (G.Goal.means below) }
        ensures back { GivenBack below result }
    {
        if modulus == 0 || modulus > MOST_MODULUS || remainder >= modulus {
            return Err(HandedBack::new(Refusal::BadStride, below));
        }
        Ok(Stride {
            below,
            modulus,
            remainder,
        })
    }

    // The goal below.
    pub fn below(&self) -> &G
        ensures { result.now ≡ self.now.below }
    {
        &self.below
    }

    // The number by which totals are divided.
    pub fn modulus(&self) -> u64
        ensures { result ≡ self.now.modulus }
    {
        self.modulus
    }

    // The remainder that its totals have.
    pub fn remainder(&self) -> u64
        ensures { result ≡ self.now.remainder }
    {
        self.remainder
    }
}

impl<G: Goal> Goal for Stride<G> {
    ghost means = { λ s. strided s.modulus s.remainder (G.Goal.means s.below) };

    ghost bounded = { Prim.search rules };

    ghost low = { Prim.search rules };

    fn top(&self) -> u64 {
        self.below.top()
    }

    fn admits(&self, total: u64) -> bool {
        self.below.admits(total) && total % self.modulus == self.remainder
    }
}
