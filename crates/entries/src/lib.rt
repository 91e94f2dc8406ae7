// Calls of a plan as values, each with room for its answer.
#![tactic(auto)]

ghost use Rattle.std.specs.Prelude.{◌≡◌, Some, None};

use model::refusal::Refusal;

// How many cells of each lent table a call gets: all, where there are fewer.
#[derive(Clone, Copy)]
pub struct Cells {
    pub forward: usize,
    pub backward: usize,
}

// A call of a settled plan.
#[derive(Clone, Copy)]
pub enum Call {
    RuleOut { kind: u64, count: u64, cells: Cells },
    Branch,
    Keep { number: u64 },
    Withdraw { number: u64, cells: Cells },
}

// A call, with its answer once it was made.
#[derive(Clone, Copy)]
pub struct Entry {
    call: Call,
    answer: Option<Result<u32, Refusal>>,
}

impl Entry {
    // A call that is yet to be made.
    pub fn new(call: Call) -> Entry
        ensures call { result.call ≡ call }
        ensures answer { result.answer ≡ None }
    {
        Entry { call, answer: None }
    }

    // The call.
    pub fn call(&self) -> Call
        ensures { result ≡ self.now.call }
    {
        self.call
    }

    // Its answer, if it was made.
    pub fn answer(&self) -> Option<Result<u32, Refusal>>
        ensures { result ≡ self.now.answer }
    {
        self.answer
    }

    // The entry with the answer of its call.
    pub fn answered(self, answer: Result<u32, Refusal>) -> Entry
        ensures call { result.call ≡ self.call }
        ensures answer { result.answer ≡ Some answer }
    {
        Entry {
            call: self.call,
            answer: Some(answer),
        }
    }
}
