// Kinds, each with one set of counts: those that are allowed, or those that stand.
ghost use Rattle.std.specs.Prelude.{◌≡◌, length};

use crate::kind::Kind;

// The kind at a place has the set at the same place.
#[derive(Clone, Copy)]
pub struct Parts<'a> {
    pub kinds: &'a [Kind],
    pub sets: &'a [u64],
    ghost same: { length sets.now ≡ length kinds.now },
}
