// Why a call is refused.
ghost use Rattle.std.specs.Prelude.{◌≡◌};
ghost use Rattle.model.specs.Refusals.{number_of};

// One variant for each of the planner's refusal numbers, which are 1 to 15 in this order.
#[derive(Clone, Copy, PartialEq, Eq, Debug)]
pub enum Refusal {
    // The case has 32 kinds already.
    CaseFull = 1,
    // A size is over 4,095 or a price over 1,000.
    OverLimit,
    // A kind would have no allowed count.
    EmptySet,
    // The totals named make no goal: a band upside down, a list that is empty, too long or not strictly rising, a top over 4,095.
    BadTotals,
    // A stride's modulus is 0 or over 4,096, or its remainder is not below the modulus.
    BadStride,
    // The case has no kind.
    NoKind,
    // A table or a slice of values is shorter than the plan needs.
    TooShort,
    // No load fits, or none would be left.
    NoLoad,
    // The plan is settled already, or is not settled yet.
    WrongStage,
    // There is no such kind, or no such count.
    OutOfRange,
    // The count does not stand.
    NotStanding,
    // Eight branches are open.
    BranchesFull,
    // The branch is not the latest that is open.
    NotLatest,
    // The slice for a load does not have a byte for each kind.
    LoadLength,
    // No fitting load of standing counts comes.
    EndOfLoads,
}

impl Refusal {
    // The number under which the refusal is known outside.
    pub fn number(self) -> u8
        ensures { result ≡ number_of self }
    {
        self as u8
    }
}

// A refusal that hands back what the call was given.
#[derive(Drop)]
pub struct HandedBack<T> {
    refusal: Refusal,
    given: T,
}

impl<T> HandedBack<T> {
    // What was given, with the reason why it was not taken.
    pub fn new(refusal: Refusal, given: T) -> HandedBack<T>
        ensures refusal { result.refusal ≡ refusal }
        ensures given { result.given ≡ given }
    {
        HandedBack { refusal, given }
    }

    // Why the call was refused.
    pub fn refusal(&self) -> Refusal
        ensures { result ≡ self.now.refusal }
    {
        self.refusal
    }

    // What the call was given.
    pub fn given(self) -> T
        ensures { result ≡ self.given }
    {
        let HandedBack { refusal: _, given } = self;
        given
    }
}
