// The first three bytes of a field: its tag, and the length of its value.
ghost use Rattle.fields.specs.Fields.{Heads};
ghost use Rattle.fields.specs.Reading.{Bytes};

use crate::field::Cause;
use crate::tag::Tag;

// The tag and the length of a field that has passed.
#[derive(Clone, Copy)]
pub struct Head {
    pub(crate) tag: Tag,
    pub(crate) len: usize,
}

// The head of the field that begins `rest`, or the first fault: fewer than 3 bytes, an unknown tag, a wrong length, a value cut short.
pub(crate) fn read_head(rest: &[u8]) -> Result<Head, Cause>
    ensures head { Heads rest.now result }
    ensures bytes { Bytes rest.now }
{
    let [tag, high, low, value @ ..] = rest else {
        return Err(Cause::Short);
    };
    let tag = Tag::try_from(*tag)?;
    let len = usize::from(u16::from_be_bytes([*high, *low]));
    if !tag.may_have(len) {
        return Err(Cause::WrongLength);
    }
    if value.len() < len {
        return Err(Cause::Short);
    }
    Ok(Head { tag, len })
}
