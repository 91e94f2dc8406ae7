// A case file, read field by field.
#![tactic(auto)]

ghost use Rattle.fields.specs.Reading.{Inverse};

pub mod cursor;
pub mod field;
mod head;
pub mod placed;
mod tag;
mod value;

// Reading and writing are inverse to each other.
pub fn reading_inverts_writing()
    ensures { Inverse }
{}
