// Sets of counts, one for each kind.
ghost use Rattle.std.specs.Prelude.{◌≡◌, ◌+◌, ◌*◌, ◌<◌, ◌≤◌, true, ◌&&◌, map, length, take, nat_le, slice_index};
ghost use Rattle.model.specs.Sets.{has, held_in_all};
ghost use Rattle.meaning.specs.Strike.{strike, struck};

use model::kind::Kind;
use model::sets::how_many;

// How many counts the sets hold in all.
pub fn held_in_all(sets: &[u64]) -> u32
    requires { length sets.now ≤ 32 }
    ensures { result ≡ held_in_all sets.now }
{
    sets.iter().map(|set| how_many(*set)).sum()
}

// The allowed sets of the kinds.
pub fn allowed_sets(kinds: &[Kind]) -> [u64; 32]
    requires { length kinds.now ≤ 32 }
    ensures { take (length kinds.now) result ≡ map (λ k. k.allowed) kinds.now }
{
    let mut sets = [0; 32];
    for (i, kind) in kinds.iter().enumerate() {
        sets[i] = kind.allowed();
    }
    sets
}

// Whether there is a kind of that number among so many, and the count is at most 63.
pub fn in_range(kind: u64, count: u64, many: usize) -> bool
    ensures { result ≡ (nat_le 1 kind && (nat_le kind many && nat_le count 63)) }
{
    is_kind(kind, many) && count <= 63
}

// Whether there is a kind of that number among so many.
pub fn is_kind(number: u64, many: usize) -> bool
    ensures { result ≡ (nat_le 1 number && nat_le number many) }
{
    number >= 1 && number <= many as u64
}

// The set without a count that it holds.
fn without(set: u64, count: u64) -> u64
    requires small { count < 64 }
    requires stands { has set count ≡ true }
    ensures { result ≡ struck set count }
{
    set ^ (1u64 << count)
}

// The sets, with a count that stands struck.
pub fn strike_count(sets: &[u64], at: usize, count: u64) -> [u64; 32]
    requires few { length sets.now ≤ 32 }
    requires kind { at < length sets.now }
    requires small { count < 64 }
    requires stands { has (slice_index sets.now at) count ≡ true }
    ensures { take (length sets.now) result ≡ strike sets.now at count }
{
    let mut left = [0; 32];
    left[..sets.len()].copy_from_slice(sets);
    left[at] = without(sets[at], count);
    left
}
