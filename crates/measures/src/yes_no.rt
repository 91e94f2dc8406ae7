// Yes or no: whether there is a load. A value is a mark byte, 1 or 0.
ghost use Rattle.meaning.specs.Models.{yes_no};
ghost use Rattle.meaning.proofs.Lawful.{yes_no_laws};

use crate::Measure;

pub struct YesNo;

impl Measure for YesNo {
    type Value = u8;

    ghost means = { yes_no };

    ghost lawful = { yes_no_laws };

    fn zero() -> u8 {
        0
    }

    fn one() -> u8 {
        1
    }

    fn join(a: u8, b: u8) -> u8 {
        a | b
    }

    fn chain(a: u8, b: u8) -> u8 {
        a & b
    }

    fn worth(_price: u16, _count: u8) -> u8 {
        Self::one()
    }
}
