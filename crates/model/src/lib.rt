// The subject's vocabulary: kinds, cases, sets of counts, goals, and why a call is refused.
#![tactic(auto)]

ghost use Rattle.model.specs.Claims.{ChoicesListed, LoadsListed, OrderTold};

pub mod case;
pub mod goal;
pub mod kind;
pub mod limits;
pub mod parts;
pub mod refusal;
pub mod sets;

// The choices from any sets that pass any test are listed each once, by the first kind in which they differ, the smaller count first;
// so are the fitting loads; and the test of the order is that relation.
pub fn loads_are_listed()
    ensures choices { ChoicesListed }
    ensures loads { LoadsListed }
    ensures order { OrderTold }
{}
