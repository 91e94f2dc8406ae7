// The number of loads, cut off at 4,294,967,295.
ghost use Rattle.meaning.specs.Models.{loads};
ghost use Rattle.meaning.proofs.Lawful.{loads_laws};

use crate::Measure;

pub struct Loads;

impl Measure for Loads {
    type Value = u32;

    ghost means = { loads };

    ghost lawful = { loads_laws };

    fn zero() -> u32 {
        0
    }

    fn one() -> u32 {
        1
    }

    fn join(a: u32, b: u32) -> u32 {
        a.saturating_add(b)
    }

    fn chain(a: u32, b: u32) -> u32 {
        a.saturating_mul(b)
    }

    fn worth(_price: u16, _count: u8) -> u32 {
        Self::one()
    }
}
