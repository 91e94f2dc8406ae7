// The backward marks of some kinds with their standing sets, in rows of `width` cells.
ghost use Rattle.std.specs.Prelude.{◌+◌, ◌*◌, ◌≤◌, length};

use model::parts::Parts;

#[derive(Clone, Copy)]
pub struct Marks<'a> {
    pub cells: &'a [u8],
    pub width: usize,
    pub parts: Parts<'a>,
    ghost few: { length parts.kinds.now ≤ 32 },
    ghost wide: { width ≤ 4096 },
    ghost room: { (length parts.kinds.now + 1) * width ≤ length cells.now },
}
