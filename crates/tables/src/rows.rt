// What both passes do to a row, and by how far they move one.
ghost use Rattle.std.specs.Prelude.{◌≡◌, ℕ, ◌*◌, ◌<◌, ◌≤◌, length, slice_index_or};

use measures::Measure;
use model::kind::Kind;

// How many blocks so many projects of a kind take up.
pub(crate) fn blocks(kind: Kind, count: u8) -> usize
    ensures { result ≡ kind.size * count }
{
    usize::from(kind.size()) * usize::from(count)
}

// Every cell of the row zero. (A slice's `fill` asks for a clone that cannot fail, of which the values of a measure say nothing.)
pub(crate) fn zero_row<M: Measure>(row: &mut [M::Value])
    ensures { (b : ℕ) → b < length row.old → slice_index_or row.new b M.Measure.means.zero ≡ M.Measure.means.zero }
{
    row.fill_with(|| M::zero());
}

// The cells of one row, each chained with a worth, joined to those of another. This is the planner's innermost loop: no branch, no test of
// a bound, so that it is compiled to vector code. (Tried: after a loop over `row.iter_mut().zip(from)` a proof knows the length of the row, and
// nothing of the values in it.) It is not put into its callers: there the loop had longer instructions, and took up to twice the time where
// its last jump came to lie across a boundary of 32 bytes.
#[inline(never)]
pub(crate) fn join_part<M: Measure>(from: &[M::Value], row: &mut [M::Value], worth: M::Value)
    requires { length row.old ≤ length from.now }
    ensures { (b : ℕ) → b < length row.old → slice_index_or row.new b M.Measure.means.zero ≡ M.Measure.means.join (slice_index_or row.old b M.Measure.means.zero) (M.Measure.means.chain (slice_index_or from.now b M.Measure.means.zero) worth) }
{
    for (b, cell) in row.iter_mut().enumerate() {
        *cell = M::join(*cell, M::chain(from[b], worth));
    }
}
