// Sets of counts as 64-bit numbers: bit d says whether count d is in the set.
ghost use Rattle.std.specs.Prelude.{◌≡◌, ◌<◌, ◌≤◌, count_ones, sum_by};
ghost use Rattle.model.specs.Sets.{has, held};

use crate::limits::COUNTS;
use crate::sets::ones::ONES;

mod ones;

// Bit `count` of the set.
fn bit(set: u64, count: u64) -> bool
    requires { count < 64 }
    ensures { result ≡ has set count }
{
    (set >> count) % 2 == 1
}

// Whether the count is in the set. Any number may be asked.
pub fn contains(set: u64, count: u64) -> bool
    ensures { result ≡ has set count }
{
    count < COUNTS && bit(set, count)
}

// The number of ones in eight bits.
fn ones_in(byte: u8) -> u8
    ensures { result ≡ count_ones byte }
{
    ONES[usize::from(byte)]
}

// The number of ones in some bytes.
fn ones_among(bytes: &[u8]) -> u32
    requires { sum_by count_ones bytes.now ≤ 64 }
    ensures { result ≡ sum_by count_ones bytes.now }
{
    bytes.iter().map(|byte| u32::from(ones_in(*byte))).sum()
}

// How many counts the set holds, eight bits at a time.
pub fn how_many(set: u64) -> u32
    ensures members { result ≡ held set }
    ensures few { result ≤ 64 }
{
    ones_among(&set.to_le_bytes())
}
