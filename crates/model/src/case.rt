// A case: up to 32 kinds.
ghost use Rattle.std.specs.Prelude.{◌≡◌, []};
ghost use Rattle.model.specs.Answers.{answer_of, refusal_in};
ghost use Rattle.model.specs.Cases.{add_refused, added, allowed_parts, kinds_in};

use crate::kind::Kind;
use crate::limits::{MOST_KINDS, MOST_PRICE, MOST_SIZE};
use crate::refusal::Refusal;
use fixed_list::FixedList;

// Its kinds in order; the first of them is kind 1.
#[derive(Clone, Copy)]
pub struct Case {
    kinds: FixedList<Kind, MOST_KINDS>,
}

// Why a kind may not be added to so many, if it may not.
fn why_not(many: usize, size: u64, price: u64, allowed: u64) -> Result<(), Refusal>
    ensures { refusal_in result ≡ add_refused many size price allowed }
{
    if many >= MOST_KINDS {
        return Err(Refusal::CaseFull);
    }
    if size > MOST_SIZE || price > MOST_PRICE {
        return Err(Refusal::OverLimit);
    }
    if allowed == 0 {
        return Err(Refusal::EmptySet);
    }
    Ok(())
}

impl Case {
    // A case of no kinds.
    pub fn new() -> Case
        ensures { kinds_in result ≡ [] }
    {
        let blank = Kind::new(0, 0, 1);
        let kinds = FixedList::new(blank);
        Case { kinds }
    }

    // One kind more, with its size in blocks, its price and the set of its allowed counts; the answer is its number.
    pub fn add(&mut self, size: u64, price: u64, allowed: u64) -> Result<u64, Refusal>
        ensures { (allowed_parts (kinds_in self.new), answer_of result) ≡ added (allowed_parts (kinds_in self.old)) size price allowed }
    {
        why_not(self.kinds.len(), size, price, allowed)?;
        let kind = Kind::new(size as u16, price as u16, allowed);
        self.kinds.push(kind);
        Ok(self.kinds.len() as u64)
    }

    // The kinds, the first of them being kind 1.
    pub fn kinds(&self) -> &[Kind]
        ensures { result.now ≡ kinds_in self.now }
    {
        self.kinds.as_slice()
    }
}
