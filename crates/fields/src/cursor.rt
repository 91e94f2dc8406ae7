// A place in a file that is read. The cursor holds the file by reference, and copies none of it.
ghost use Rattle.std.specs.Prelude.{◌≡◌, ◌≤◌, length};
ghost use Rattle.fields.specs.Reading.{Next};

use crate::field::{Field, FieldFault};
use crate::head::read_head;
use crate::value::read_value;

#[derive(Drop)]
pub struct Cursor<'a> {
    bytes: &'a [u8],
    place: usize,
    ghost inside: { place ≤ length bytes.now },
}

impl<'a> Cursor<'a> {
    // At the beginning of the file.
    pub fn new(bytes: &'a [u8]) -> Cursor<'a>
        ensures bytes { result.bytes.now ≡ bytes.now }
        ensures place { result.place ≡ 0 }
    {
        Cursor { bytes, place: 0 }
    }

    // The offset of the next field's tag.
    pub fn place(&self) -> usize
        ensures { result ≡ self.now.place }
    {
        self.place
    }

    // The next field, with the place moved past it; a fault leaves the place.
    pub fn next(&mut self) -> Result<Field<'a>, FieldFault>
        ensures answer { Next self.old.bytes.now self.old.place result self.new.place }
        ensures file { self.new.bytes.now ≡ self.old.bytes.now }
    {
        let place = self.place;
        let bytes = self.bytes;
        let (_, rest) = bytes.split_at(place);
        let head = read_head(rest).map_err(|cause| FieldFault::new(place, cause))?;
        self.place = place + 3 + head.len;
        Ok(read_value(rest, head))
    }
}
