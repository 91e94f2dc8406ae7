// The rule-outs of a file with their answers, in file order.
use fixed_list::FixedList;
use sequence::ruled::Ruled;

pub mod calls;

// As many as a file can hold: a rule-out takes 5 of its 16,384 bytes, and the end 3.
pub const MOST_RULED: usize = 3277;

#[derive(Clone, Copy)]
pub struct Answers {
    rows: FixedList<Ruled, MOST_RULED>,
}
