// The tags of the fields.
ghost use Rattle.std.specs.Prelude.{◌≡◌};
ghost use Rattle.fields.specs.Fields.{right_length};
ghost use Rattle.fields.specs.Tags.{Tagged, code};

use crate::field::Cause;

#[derive(Clone, Copy, PartialEq, Eq, Debug)]
pub enum Tag {
    End,
    Kind,
    Band,
    List,
    Stride,
    RuleOut,
}

impl TryFrom<u8> for Tag {
    type Error = Cause;

    ghost try_from_gives = { Tagged };

    fn try_from(byte: u8) -> Result<Tag, Cause> {
        match byte {
            0 => Ok(Tag::End),
            1 => Ok(Tag::Kind),
            2 => Ok(Tag::Band),
            3 => Ok(Tag::List),
            4 => Ok(Tag::Stride),
            5 => Ok(Tag::RuleOut),
            _ => Err(Cause::UnknownTag),
        }
    }
}

impl Tag {
    // Whether a field with this tag may have this length.
    pub(crate) fn may_have(self, len: usize) -> bool
        ensures { result ≡ right_length (code self) len }
    {
        match self {
            Tag::End => len == 0,
            Tag::Kind => len == 12,
            Tag::Band | Tag::Stride => len == 4,
            Tag::List => 2 <= len && len <= 32 && len % 2 == 0,
            Tag::RuleOut => len == 2,
        }
    }
}
