// Goals.
ghost use Rattle.std.specs.Prelude.{◌≡◌, ◌≤◌};
ghost use Rattle.model.specs.Goals.{Bounded, Target};

pub mod band;
pub mod list;
pub mod rising;
pub mod stride;

// A goal means a set of totals, none above its top.
pub trait Goal {
    // The set, as a test, and the top.
    ghost means: { Self → Target };

    // The top, at most 4,095. It need not be in the set.
    fn top(&self) -> u64
        ensures { result ≡ (means self.now).top };

    // Whether the total is in the set. Any number may be asked.
    fn admits(&self, total: u64) -> bool
        ensures { result ≡ (means self.now).admits total };

    ghost bounded: { (g : Self) → Bounded (means g) };

    ghost low: { (g : Self) → (means g).top ≤ 4095 };
}
