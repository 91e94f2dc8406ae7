// The fault of a file carries that of a field or of an operation whole.
ghost use Rattle.std.specs.Prelude.{◌≡◌};
ghost use Rattle.faults.specs.Faults.{fault_number, layer_of, place_of};
ghost use Rattle.faults.specs.declared.fault.FileFault.TheVariants.{Field as InField, Plan as InPlan};

use crate::limits::MOST_BYTES;
use fields::field::FieldFault;
use fields::placed::Placed;
use model::refusal::Refusal;

// A refused operation, with the place of its field.
pub type PlanFault = Placed<Refusal>;

#[derive(Clone, Copy)]
pub enum FileFault {
    // A field cannot be read.
    Field(FieldFault),
    // An operation is refused.
    Plan(PlanFault),
    // A field is out of sequence, or a byte stands after the end.
    OutOfSequence { place: usize },
    // The file has too many bytes.
    TooLong,
}

// Where a fault arose.
#[derive(Clone, Copy, PartialEq, Eq, Debug)]
pub enum Layer {
    Field,
    File,
    Plan,
}

impl From<FieldFault> for FileFault {
    ghost from_gives = { λ e r. r ≡ InField e };

    fn from(e: FieldFault) -> FileFault {
        FileFault::Field(e)
    }
}

impl From<PlanFault> for FileFault {
    ghost from_gives = { λ e r. r ≡ InPlan e };

    fn from(e: PlanFault) -> FileFault {
        FileFault::Plan(e)
    }
}

impl FileFault {
    // The layer that found the fault.
    pub fn layer(&self) -> Layer
        ensures { result ≡ layer_of self.now }
    {
        match self {
            FileFault::Field(_) => Layer::Field,
            FileFault::Plan(_) => Layer::Plan,
            FileFault::OutOfSequence { .. } | FileFault::TooLong => Layer::File,
        }
    }

    // The offset in the file to which the fault belongs.
    pub fn place(&self) -> usize
        ensures { result ≡ place_of self.now }
    {
        match self {
            FileFault::Field(fault) => fault.place(),
            FileFault::Plan(fault) => fault.place(),
            FileFault::OutOfSequence { place } => *place,
            FileFault::TooLong => MOST_BYTES,
        }
    }

    // The number under which the fault is known outside.
    pub fn number(&self) -> u8
        ensures { result ≡ fault_number self.now }
    {
        match self {
            FileFault::Field(fault) => fault.cause().number(),
            FileFault::Plan(fault) => fault.cause().number(),
            FileFault::OutOfSequence { .. } => 19,
            FileFault::TooLong => 20,
        }
    }
}
