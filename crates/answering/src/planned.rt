// The lines of a settled plan. A plan that a file was read into refuses none of these calls; were one refused, nothing more would be written.
use crate::CELLS;
use measures::loads::Loads;
use measures::prices::{Highest, Lowest};
use model::case::Case;
use model::goal::Goal;
use model::limits::MOST_KINDS;
use model::refusal::Refusal;
use plan::plan::Plan;
use reader::goal::FileGoal;
use report::lines::{FirstLine, KindLine, PlanLine, Tally, TallyLine};
use std::fmt;

// What was answered; a refusal ends the writing.
fn accepted<T>(answer: Result<T, Refusal>) -> Result<T, fmt::Error> {
    answer.map_err(|_| fmt::Error)
}

// One line for each kind: its standing counts.
fn write_kinds<W: fmt::Write>(out: &mut W, many: u64, plan: &Plan<FileGoal>) -> fmt::Result {
    for kind in 1..=many {
        let set = accepted(plan.standing(kind))?;
        let line = KindLine { kind, set };
        writeln!(out, "{line}")?;
    }
    Ok(())
}

// One tally; a price that no load has ends the writing.
fn write_tally<W: fmt::Write>(
    out: &mut W,
    what: Tally,
    answer: Result<Option<u32>, Refusal>,
) -> fmt::Result {
    let value = accepted(answer)?.ok_or(fmt::Error)?;
    let line = TallyLine { what, value };
    writeln!(out, "{line}")
}

// The number of loads, the lowest price and the highest.
fn write_tallies<W: fmt::Write>(out: &mut W, plan: &Plan<FileGoal>) -> fmt::Result {
    let mut numbers = [0; CELLS];
    let mut prices = [None; CELLS];
    write_tally(
        out,
        Tally::Loads,
        plan.tally::<Loads>(&mut numbers).map(Some),
    )?;
    write_tally(out, Tally::Lowest, plan.tally::<Lowest>(&mut prices))?;
    write_tally(out, Tally::Highest, plan.tally::<Highest>(&mut prices))
}

// The first load.
fn write_first<W: fmt::Write>(
    out: &mut W,
    many: usize,
    plan: &Plan<FileGoal>,
    forward: &mut [u8],
    backward: &mut [u8],
) -> fmt::Result {
    let mut counts = [0; MOST_KINDS];
    let load = &mut counts[..many.min(MOST_KINDS)];
    accepted(plan.first_load(load, forward, backward))?;
    let line = FirstLine(load);
    writeln!(out, "{line}")
}

// All lines of the plan, in order.
pub(crate) fn write_plan<W: fmt::Write>(
    out: &mut W,
    case: &Case,
    plan: &Plan<FileGoal>,
    forward: &mut [u8],
    backward: &mut [u8],
) -> fmt::Result {
    let many = case.kinds().len();
    let kinds = many as u64;
    let line = PlanLine {
        kinds,
        top: plan.goal().top(),
    };
    writeln!(out, "{line}")?;
    write_kinds(out, kinds, plan)?;
    write_tallies(out, plan)?;
    write_first(out, many, plan, forward, backward)
}
