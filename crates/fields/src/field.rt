// What one field of a case file is, and why it cannot be read.
ghost use Rattle.std.specs.Prelude.{◌≡◌};
ghost use Rattle.fields.specs.Causes.{cause_number};

use crate::placed::Placed;

// A field's value. A list borrows its totals from the file, two bytes each.
#[derive(Clone, Copy)]
pub enum Field<'a> {
    Kind { size: u16, price: u16, set: u64 },
    Band { low: u16, high: u16 },
    List(&'a [u8]),
    Stride { modulus: u16, remainder: u16 },
    RuleOut { kind: u8, count: u8 },
    End,
}

// Why a field cannot be read, by the numbers that are known outside.
#[derive(Clone, Copy, PartialEq, Eq, Debug)]
pub enum Cause {
    // Fewer than 3 bytes are left, or fewer than the length says.
    Short = 16,
    // The tag is none of the six.
    UnknownTag = 17,
    // A field of that tag has another length.
    WrongLength = 18,
}

impl Cause {
    // The number under which the fault is known outside.
    pub fn number(self) -> u8
        ensures { result ≡ cause_number self }
    {
        self as u8
    }
}

// Why the field at a place cannot be read.
pub type FieldFault = Placed<Cause>;
