// Branches, as values that have to be given back.
ghost use Rattle.std.specs.Prelude.{◌≡◌};
ghost use Rattle.model.specs.Answers.{GivenBack, answer_of, outcome_back};
ghost use Rattle.plan.specs.Latest.{IsLatest};

use model::refusal::{HandedBack, Refusal};

// An open branch of a plan, which knows it by its number alone, 1 to 8. It has no `Drop` and cannot be copied: only an accepted keep or
// withdraw ends it.
pub struct Branch {
    number: u64,
}

impl Branch {
    // The branch of that number.
    pub(crate) fn of(number: u64) -> Branch
        ensures { result.number ≡ number }
    {
        Branch { number }
    }

    // The number under which the plan knows the branch.
    pub fn number(&self) -> u64
        ensures { result ≡ self.now.number }
    {
        self.number
    }

    // Ends the branch.
    pub(crate) fn spend(self) -> u64
        ensures { result ≡ self.number }
    {
        let Branch { number } = self;
        number
    }

    // What the call that was given the branch answers: an accepted one ends the branch, a refusal hands it back.
    pub(crate) fn answered(self, answer: Result<u32, Refusal>) -> Result<u32, HandedBack<Branch>>
        ensures answer { outcome_back (λ n. n) result ≡ answer_of answer }
        ensures back { GivenBack self result }
    {
        match answer {
            Ok(value) => {
                let _ = self.spend();
                Ok(value)
            }
            Err(refusal) => Err(HandedBack::new(refusal, self)),
        }
    }
}

// All the branches of a plan that are open, numbered from 1. Like a branch it has to be given back, one branch after the other.
pub struct OpenBranches {
    many: usize,
}

impl OpenBranches {
    // So many open branches.
    pub(crate) fn of(many: usize) -> OpenBranches
        ensures { result.many ≡ many }
    {
        OpenBranches { many }
    }

    // How many are open.
    pub fn many(&self) -> usize
        ensures { result ≡ self.now.many }
    {
        self.many
    }

    // The latest branch and the others; none where none is open.
    pub fn latest(self) -> Option<(Branch, OpenBranches)>
        ensures { IsLatest self.many result }
    {
        let OpenBranches { many } = self;
        if many == 0 {
            return None;
        }
        Some((Branch::of(many as u64), OpenBranches::of(many - 1)))
    }
}
