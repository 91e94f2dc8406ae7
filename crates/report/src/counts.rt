// Counts as text, each after a space.
ghost use Rattle.std.specs.Prelude.{Some};
ghost use Rattle.model.specs.Sets.{members};
ghost use Rattle.report.specs.Lines.{spaced};

use model::sets::contains;
use std::fmt;

// The counts of a set, rising.
#[derive(Clone, Copy)]
pub struct SetCounts(pub u64);

impl fmt::Display for SetCounts {
    ghost output = { λ x. Some (spaced (members x.0)) };

    fn fmt<W: fmt::Write>(&self, f: &mut fmt::Formatter<W>) -> fmt::Result {
        let set = self.0;
        for member in 0..64 {
            if contains(set, member) {
                write!(f, " {member}")?;
            }
        }
        Ok(())
    }
}

// The counts of a load, in the order of the kinds.
#[derive(Clone, Copy)]
pub struct LoadCounts<'a>(pub &'a [u8]);

impl<'a> fmt::Display for LoadCounts<'a> {
    ghost output = { λ x. Some (spaced x.0.now) };

    fn fmt<W: fmt::Write>(&self, f: &mut fmt::Formatter<W>) -> fmt::Result {
        for count in self.0 {
            write!(f, " {count}")?;
        }
        Ok(())
    }
}
