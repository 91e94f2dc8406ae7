// The line of a fault.
ghost use Rattle.std.specs.Prelude.{Some};
ghost use Rattle.faults.specs.Faults.{fault_line, layer_word};

use crate::fault::{FileFault, Layer};
use std::fmt;

impl fmt::Display for Layer {
    ghost output = { λ l. Some (layer_word l) };

    fn fmt<W: fmt::Write>(&self, f: &mut fmt::Formatter<W>) -> fmt::Result {
        match self {
            Layer::Field => write!(f, "field"),
            Layer::File => write!(f, "file"),
            Layer::Plan => write!(f, "plan"),
        }
    }
}

impl fmt::Display for FileFault {
    ghost output = { λ x. Some (fault_line x) };

    fn fmt<W: fmt::Write>(&self, f: &mut fmt::Formatter<W>) -> fmt::Result {
        let layer = self.layer();
        let place = self.place();
        let number = self.number();
        write!(f, "fault {layer} {place} {number}")
    }
}
