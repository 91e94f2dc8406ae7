// The value of a field whose head has passed. Numbers have the high byte first.
ghost use Rattle.std.specs.Prelude.{◌≡◌, ◌+◌, ◌≤◌, length, Ok};
ghost use Rattle.fields.specs.Fields.{Heads, Reads, eight, two};

use crate::field::Field;
use crate::head::Head;
use crate::tag::Tag;

// The number in two bytes of the file.
fn pair(bytes: &[u8], at: usize) -> u16
    requires { at + 2 ≤ length bytes.now }
    ensures { result ≡ two bytes.now at }
{
    u16::from_be_bytes([bytes[at], bytes[at + 1]])
}

// The number in eight bytes of the file.
fn octet(bytes: &[u8], at: usize) -> u64
    requires { at + 8 ≤ length bytes.now }
    ensures { result ≡ eight bytes.now at }
{
    u64::from_be_bytes([
        bytes[at],
        bytes[at + 1],
        bytes[at + 2],
        bytes[at + 3],
        bytes[at + 4],
        bytes[at + 5],
        bytes[at + 6],
        bytes[at + 7],
    ])
}

// The field that begins `rest`, which has this head.
pub(crate) fn read_value<'a>(rest: &'a [u8], head: Head) -> Field<'a>
    requires { Heads rest.now (Ok head) }
    ensures { Reads rest.now result }
{
    match head.tag {
        Tag::End => Field::End,
        Tag::Kind => Field::Kind {
            size: pair(rest, 3),
            price: pair(rest, 5),
            set: octet(rest, 7),
        },
        Tag::Band => Field::Band {
            low: pair(rest, 3),
            high: pair(rest, 5),
        },
        Tag::List => Field::List(&rest[3..3 + head.len]),
        Tag::Stride => Field::Stride {
            modulus: pair(rest, 3),
            remainder: pair(rest, 5),
        },
        Tag::RuleOut => Field::RuleOut {
            kind: rest[3],
            count: rest[4],
        },
    }
}
