// The cases that are timed: 32 kinds under a band whose top is 4,095.
use model::case::Case;
use model::goal::band::Band;
use model::refusal::Refusal;

// How many counts each kind is allowed, from 0 on, and the sizes: the first kind's, and by how much each later kind is larger.
#[derive(Clone, Copy)]
pub struct Input {
    pub counts: u64,
    pub first: u64,
    pub step: u64,
}

impl Input {
    // The set of allowed counts.
    fn allowed(&self) -> u64 {
        if self.counts < 64 {
            (1u64 << self.counts) - 1
        } else {
            u64::MAX
        }
    }

    pub fn case(&self) -> Result<Case, Refusal> {
        let mut case = Case::new();
        let mut size = self.first;
        let mut price = 7u64;
        for _ in 0..32u8 {
            case.add(size, price, self.allowed())?;
            size = size.saturating_add(self.step);
            price = price.wrapping_mul(3) % 101;
        }
        Ok(case)
    }
}

pub fn band() -> Result<Band, Refusal> {
    Band::new(4000, 4095)
}
