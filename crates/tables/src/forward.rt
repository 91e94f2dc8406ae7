// The forward pass, once for every measure.
ghost use Rattle.std.specs.Prelude.{◌≡◌, ℕ, ◌+◌, ◌-◌, ◌*◌, ◌<◌, ◌≤◌, length, get_or, if◌then◌else◌, nat_le, slice_index_or};
ghost use Rattle.model.specs.Sets.{has};
ghost use Rattle.model.specs.Parts.{part};
ghost use Rattle.meaning.specs.Recurrence.{first_row, row_after, FilledTo};
ghost use Rattle.tables.specs.Tables.{parts_of};

use crate::rows::{blocks, join_part, zero_row};
use measures::Measure;
use model::kind::Kind;
use model::parts::Parts;
use model::sets::contains;

// One count of a kind: the row before, moved on by size × count and chained with the count's worth, is joined to the row. What passes the
// row's end is left out.
fn join_moved<M: Measure>(before: &[M::Value], row: &mut [M::Value], kind: Kind, d: u8)
    requires same { length before.now ≡ length row.old }
    requires small { d < 64 }
    ensures { (b : ℕ) → b < length row.old → slice_index_or row.new b M.Measure.means.zero ≡ (if nat_le (kind.size * d) b then M.Measure.means.join (slice_index_or row.old b M.Measure.means.zero) (M.Measure.means.chain (slice_index_or before.now (b - kind.size * d) M.Measure.means.zero) (M.Measure.means.worth kind.price d)) else slice_index_or row.old b M.Measure.means.zero) }
{
    let shift = blocks(kind, d);
    if shift < row.len() {
        join_part::<M>(before, &mut row[shift..], M::worth(kind.price(), d));
    }
}

// The same, if the count stands. Most do not, so that is asked first, and alone.
fn join_count<M: Measure>(
    before: &[M::Value],
    row: &mut [M::Value],
    kind: Kind,
    standing: u64,
    d: u8,
)
    requires same { length before.now ≡ length row.old }
    requires small { d < 64 }
    ensures { (b : ℕ) → b < length row.old → slice_index_or row.new b M.Measure.means.zero ≡ (if has standing d then (if nat_le (kind.size * d) b then M.Measure.means.join (slice_index_or row.old b M.Measure.means.zero) (M.Measure.means.chain (slice_index_or before.now (b - kind.size * d) M.Measure.means.zero) (M.Measure.means.worth kind.price d)) else slice_index_or row.old b M.Measure.means.zero) else slice_index_or row.old b M.Measure.means.zero) }
{
    if contains(standing, u64::from(d)) {
        join_moved::<M>(before, row, kind, d);
    }
}

// A row from the row before, count by count.
fn fill_row<M: Measure>(before: &[M::Value], row: &mut [M::Value], kind: Kind, standing: u64)
    requires { length before.now ≡ length row.old }
    ensures { (b : ℕ) → b < length row.old → slice_index_or row.new b M.Measure.means.zero ≡ row_after M.Measure.means (λ c. get_or before.now c M.Measure.means.zero) (part kind standing) b }
{
    zero_row::<M>(row);
    for d in 0..64u8 {
        join_count::<M>(before, row, kind, standing, d);
    }
}

// Row 0: one at total 0, and zero elsewhere.
#[tactic(auto, unfolding(meaning::specs::Recurrence::first_row))]
fn fill_first_row<M: Measure>(row: &mut [M::Value])
    requires { 0 < length row.old }
    ensures { (b : ℕ) → b < length row.old → slice_index_or row.new b M.Measure.means.zero ≡ first_row M.Measure.means b }
{
    zero_row::<M>(row);
    row[0] = M::one();
}

// All rows, from the first to the last.
pub(crate) fn fill<M: Measure>(cells: &mut [M::Value], width: usize, parts: Parts<'_>)
    requires pos { 0 < width }
    requires room { (length parts.kinds.now + 1) * width ≤ length cells.old }
    ensures { FilledTo M.Measure.means (parts_of parts.entry) width (length parts.entry.kinds.now) cells.old cells.new }
{
    fill_first_row::<M>(&mut cells[..width]);
    let Parts { kinds, sets } = parts;
    // (Tried: over the kinds zipped with the sets, with an invariant on the number of turns, six goals stay open.)
    for (i, kind) in kinds.iter().enumerate() {
        let (done, rest) = cells.split_at_mut((i + 1) * width);
        fill_row::<M>(&done[i * width..], &mut rest[..width], *kind, sets[i]);
    }
}
