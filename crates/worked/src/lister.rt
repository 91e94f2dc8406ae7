// A plain lister: it goes through every list of allowed counts, one after the other, and knows nothing of marks.
use model::kind::Kind;
use model::sets::contains;

// The least count from `from` on that is in the set.
fn least_from(set: u64, from: u8) -> Option<u8> {
    (from..64).find(|count| contains(set, u64::from(*count)))
}

// The least count that is allowed.
fn least_of(kind: &Kind) -> u8 {
    least_from(kind.allowed(), 0).unwrap_or(0)
}

// The list after this one: the last kind that has a larger allowed count takes it, and those after it start again. None after the last list.
fn list_after(kinds: &[Kind], list: [u8; 32]) -> Option<[u8; 32]> {
    let mut after = list;
    for (count, kind) in after.iter_mut().zip(kinds).rev() {
        match least_from(kind.allowed(), count.saturating_add(1)) {
            Some(larger) => {
                *count = larger;
                return Some(after);
            }
            None => *count = least_of(kind),
        }
    }
    None
}

// What the counts total.
pub(crate) fn total_of(kinds: &[Kind], counts: &[u8]) -> u64 {
    kinds
        .iter()
        .zip(counts)
        .fold(0, |total: u64, (kind, count)| {
            total.saturating_add(u64::from(kind.size()) * u64::from(*count))
        })
}

// Yields the lists of allowed counts, a count for each kind, by the first kind in which they differ, the smaller count first. Past the kinds
// each list has zeros.
#[derive(Drop)]
pub(crate) struct Lister<'a> {
    kinds: &'a [Kind],
    coming: Option<[u8; 32]>,
}

impl<'a> Lister<'a> {
    pub(crate) fn new(kinds: &'a [Kind]) -> Lister<'a> {
        let mut first = [0u8; 32];
        for (count, kind) in first.iter_mut().zip(kinds) {
            *count = least_of(kind);
        }
        Lister {
            kinds,
            coming: Some(first),
        }
    }
}

impl<'a> Iterator for Lister<'a> {
    type Item = [u8; 32];

    fn next(&mut self) -> Option<[u8; 32]> {
        let list = self.coming?;
        self.coming = list_after(self.kinds, list);
        Some(list)
    }
}
