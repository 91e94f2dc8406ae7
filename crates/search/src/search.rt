// The first fitting load, and the first after given bytes, found by the backward marks.
ghost use Rattle.std.specs.Prelude.{◌≡◌, ℕ, ◌+◌, ◌*◌, ◌<◌, ◌≤◌, Bool, true, false, ◌&&◌, List, length, drop, is_ok, Some, MatchOption, IfErr, OnOk, OnErr, ◌==◌, ◌≢◌, nat_lt, slice_index};
ghost use Rattle.std.specs.List.{slice_get};
ghost use Rattle.meaning.specs.Finding.{Gives, IsFirst, IsNext, first_load, next_load};
ghost use Rattle.meaning.specs.Marks.{Closes};
ghost use Rattle.model.specs.Loads.{Fits, fits};
ghost use Rattle.model.specs.Order.{before};
ghost use Rattle.model.specs.Sets.{has};
ghost use Rattle.model.specs.declared.refusal.Refusal.TheVariants.{EndOfLoads};
ghost use Rattle.search.specs.Search.{Highest, Leads, Least, NoneFrom, closes, is_closed_at};
ghost use Rattle.search.specs.Seen.{Right, kinds_in, part_in, parts_in};

use crate::marks::Marks;
use model::goal::Goal;
use model::refusal::Refusal;
use model::sets::contains;

// How many kinds have standing counts before them, and what the bytes given for those kinds total.
#[derive(Clone, Copy)]
pub struct Lead {
    kinds: usize,
    total: usize,
}

// The place to raise, the count to raise it to, and the total with it.
#[derive(Clone, Copy)]
pub struct Raised {
    place: usize,
    count: u8,
    total: usize,
}

impl<'a> Marks<'a> {
    fn blocks(&self, i: usize, count: u8) -> usize
        requires { i < kinds_in self.now }
        ensures value { result ≡ (part_in self.now i).size * count }
        ensures small { result ≤ 1044225 }
    {
        let kind = self.parts.kinds[i];
        usize::from(kind.size()) * usize::from(count)
    }

    fn stands(&self, i: usize, count: u8) -> bool
        requires { i < kinds_in self.now }
        ensures { result ≡ (nat_lt count 64 && has (part_in self.now i).standing count) }
    {
        count < 64 && contains(self.parts.sets[i], u64::from(count))
    }

    fn is_closed(&self, i: usize, b: usize) -> bool
        requires { i ≤ kinds_in self.now }
        ensures { result ≡ is_closed_at self.now i b }
    {
        b < self.width && self.cells[i * self.width + b] == 1
    }

    // Whether the count d of the kind at i stands and, put onto the total b, can be closed by the kinds after it.
    fn can_close(&self, i: usize, b: usize, d: u8) -> bool
        requires kind { i < kinds_in self.now }
        requires total { b < 4294967296 }
        requires count { d < 64 }
        ensures { result ≡ closes self.now i b d }
    {
        self.stands(i, d) && self.is_closed(i + 1, b + self.blocks(i, d))
    }

    // Whether the count given for the kind at i can be raised to d.
    fn can_raise(&self, i: usize, b: usize, given: u8, d: u8) -> bool
        requires kind { i < kinds_in self.now }
        requires total { b < 4294967296 }
        requires count { d < 64 }
        ensures { result ≡ (nat_lt given d && closes self.now i b d) }
    {
        given < d && self.can_close(i, b, d)
    }

    // The least count that can be closed, where there is one.
    fn least_count(&self, i: usize, b: usize) -> u8
        requires kind { i < kinds_in self.now }
        requires total { b < 4294967296 }
        requires some { (d : ℕ) × ((d < 64) × (closes self.now i b d ≡ true)) }
        ensures small { result < 64 }
        ensures closes { closes self.now i b result ≡ true }
        ensures least { (e : ℕ) → e < result → closes self.now i b e ≡ false }
    {
        (0..64).find(|d| self.can_close(i, b, *d)).unwrap()
    }

    // Fills the places from `from` on with the least counts that can be closed, the counts before them totalling `total`.
    fn fill_rest<G: Goal>(&self, goal: &G, rest: &mut [u8], from: usize, total: usize)
        requires right { Right (G.Goal.means goal.now).admits self.now }
        requires long { from + length rest.old ≡ kinds_in self.now }
        requires closes { Closes (G.Goal.means goal.now).admits (drop from (parts_in self.now)) total }
        ensures { Least (G.Goal.means goal.now).admits (drop from (parts_in self.now)) total rest.new }
    {
        let mut b = total;
        for (i, count) in rest.iter_mut().enumerate() {
            let least = self.least_count(from + i, b);
            *count = least;
            b += self.blocks(from + i, least);
        }
    }

    fn reach(&self, load: &[u8]) -> Lead
        requires { length load.now ≡ kinds_in self.now }
        ensures within { result.kinds ≤ kinds_in self.now }
        ensures leads { Leads (parts_in self.now) load.now result.kinds result.total }
    {
        let mut total = 0;
        for (i, &count) in load.iter().enumerate() {
            total += self.blocks(i, count);
            if !self.stands(i, count) {
                return Lead {
                    kinds: i + 1,
                    total,
                };
            }
        }
        Lead {
            kinds: load.len(),
            total,
        }
    }

    // The last place that can be raised, and the least count that it can be raised to.
    fn raise(&self, load: &[u8]) -> Option<Raised>
        requires { length load.now ≡ kinds_in self.now }
        ensures { MatchOption result (NoneFrom self.now load.now 0) (λ up. Highest self.now load.now up.place up.count up.total) }
    {
        let lead = self.reach(load);
        let mut total = lead.total;
        let mut found = None;
        // From the last kind down; where a count can be raised, both loops are left.
        'raised: for (i, &given) in load[..lead.kinds].iter().enumerate().rev() {
            total -= self.blocks(i, given);
            for d in 0..64u8 {
                if self.can_raise(i, total, given, d) {
                    found = Some(Raised {
                        place: i,
                        count: d,
                        total: total + self.blocks(i, d),
                    });
                    break 'raised;
                }
            }
        }
        found
    }

    // Writes the first fitting load of standing counts, or is refused since there is none. The goal is the one that the marks are for.
    pub fn first_load<G: Goal>(&self, goal: &G, load: &mut [u8]) -> Result<(), Refusal>
        requires right { Right (G.Goal.means goal.now).admits self.now }
        requires long { length load.old ≡ kinds_in self.now }
        ensures first { Gives (first_load (G.Goal.means goal.now).admits (parts_in self.now)) load.old (is_ok result) load.new }
        ensures found { OnOk result (IsFirst (G.Goal.means goal.now).admits (parts_in self.now) load.new) }
        ensures none { OnErr result ((other : List ℕ) → Fits (G.Goal.means goal.now).admits (parts_in self.now) other → ⊥) }
        ensures refusal { IfErr result (λ e. e ≡ EndOfLoads) }
        ensures run { Gives (slice_get (fits (G.Goal.means goal.now).admits (parts_in self.now)) 0) load.old (is_ok result) load.new }
    {
        if !self.is_closed(0, 0) {
            return Err(Refusal::EndOfLoads);
        }
        self.fill_rest(goal, load, 0, 0);
        Ok(())
    }

    // Writes the first fitting load of standing counts that comes after the bytes in the slice, or is refused since there is none.
    pub fn next_load<G: Goal>(&self, goal: &G, load: &mut [u8]) -> Result<(), Refusal>
        requires right { Right (G.Goal.means goal.now).admits self.now }
        requires long { length load.old ≡ kinds_in self.now }
        ensures next { Gives (next_load (G.Goal.means goal.now).admits (parts_in self.now) load.old) load.old (is_ok result) load.new }
        ensures found { OnOk result (IsNext (G.Goal.means goal.now).admits (parts_in self.now) load.old load.new) }
        ensures none { OnErr result ((other : List ℕ) → Fits (G.Goal.means goal.now).admits (parts_in self.now) other → before load.old other ≢ true) }
        ensures refusal { IfErr result (λ e. e ≡ EndOfLoads) }
        ensures run { (k : ℕ) → slice_get (fits (G.Goal.means goal.now).admits (parts_in self.now)) k ≡ Some load.old → Gives (slice_get (fits (G.Goal.means goal.now).admits (parts_in self.now)) (k + 1)) load.old (is_ok result) load.new }
    {
        let up = self.raise(load).ok_or(Refusal::EndOfLoads)?;
        load[up.place] = up.count;
        self.fill_rest(goal, &mut load[up.place + 1..], up.place + 1, up.total);
        Ok(())
    }
}
