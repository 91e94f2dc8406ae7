// What several trials ask.
use model::case::Case;
use model::goal::Goal;
use model::goal::stride::Stride;
use model::refusal::Refusal;
use samples::{Sample, case_of};

// A case of one kind.
pub(crate) fn one_kind(size: u64, price: u64, allowed: u64) -> Result<Case, Refusal> {
    case_of(&[Sample {
        size,
        price,
        allowed,
    }])
}

// The number of the refusal, where the call was refused.
pub(crate) fn refusal_of<T: Drop>(answer: Result<T, Refusal>) -> Option<u8> {
    answer.err().map(|refusal| refusal.number())
}

// A stride over a goal; its refusal alone where it is refused.
pub(crate) fn stride_over<G: Goal + Drop>(
    below: G,
    modulus: u64,
    remainder: u64,
) -> Result<Stride<G>, Refusal> {
    Stride::over(below, modulus, remainder).map_err(|back| back.refusal())
}
