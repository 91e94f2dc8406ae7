// Strictly rising totals, at most N of them.
ghost use Rattle.std.specs.Prelude.{◌≡◌, true};
ghost use Rattle.fixed_list.specs.FixedLists.{in_use};
ghost use Rattle.model.specs.Goals.{rising};

use fixed_list::FixedList;

#[derive(Clone, Copy)]
pub struct RisingTotals<const N: usize> {
    list: FixedList<u64, N>,
    ghost rises: { rising (in_use list) ≡ true },
}

// Whether each total is below the next.
fn rises(totals: &[u64]) -> bool
    ensures { result ≡ rising totals.now }
{
    totals.is_sorted_by(|total, next| *total < *next)
}

impl<const N: usize> RisingTotals<N> {
    ghost use Rattle.model.specs.Answers.{option_as};
    ghost use Rattle.model.specs.Goals.{is_in, last_in, rising_made};
    ghost use Rattle.model.specs.ListGoals.{rising_in};

    // The totals given; none where they are more than N, or do not rise strictly.
    pub fn new(totals: &[u64]) -> Option<RisingTotals<N>>
        ensures { option_as rising_in result ≡ rising_made N totals.now }
    {
        let list = FixedList::from_slice(totals, 0)?;
        if !rises(list.as_slice()) {
            return None;
        }
        Some(RisingTotals { list })
    }

    // The totals.
    pub fn totals(&self) -> &[u64]
        ensures { result.now ≡ rising_in self.now }
    {
        self.list.as_slice()
    }

    // Whether the total is one of them.
    pub fn contains(&self, total: u64) -> bool
        ensures { result ≡ is_in (rising_in self.now) total }
    {
        // They rise, so the first that is not below it decides.
        for listed in self.totals() {
            if *listed >= total {
                return *listed == total;
            }
        }
        false
    }

    // The last of them; none where there is none.
    pub fn last(&self) -> Option<u64>
        ensures { result ≡ last_in (rising_in self.now) }
    {
        self.totals().last().copied()
    }
}
