// The order of the fields in a case file, and what a run over them is.
#![tactic(auto)]

ghost use Rattle.sequence.specs.Sequence.{Sequenced};

pub mod phase;
pub mod ruled;

// The phases accept exactly the files in order.
pub fn phases_keep_order()
    ensures { Sequenced }
{}
