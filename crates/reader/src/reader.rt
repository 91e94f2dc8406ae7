// What has been read so far.
use crate::goal::{FileGoal, Named};
use model::case::Case;
use plan::plan::Plan;

pub mod calls;

// The case; the band or list of the file, once it is made; and the plan over it, under its stride if it has one.
#[derive(Drop)]
pub struct Reader {
    case: Case,
    goal: Option<Named>,
    plan: Option<Plan<FileGoal>>,
}
