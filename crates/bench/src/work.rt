// The calls that are timed, each with a number that stands for its answer.
use crate::lent::{Lent, checksum};
use crate::timing::Timing;
use measures::loads::Loads;
use measures::prices::{Highest, Lowest};
use model::case::Case;
use model::goal::band::Band;
use model::refusal::Refusal;
use plan::plan::Plan;
use std::io;

// A plan over the goal, settled with the case.
fn settled(case: &Case, goal: Band, lent: &mut Lent) -> Result<Plan<Band>, Refusal> {
    let mut plan = Plan::blank(goal);
    plan.settle(case, &mut lent.forward, &mut lent.backward)?;
    Ok(plan)
}

// A price as a number; 0 for none.
fn price_in(price: Option<u32>) -> u64 {
    price.map_or(0, |value| u64::from(value) + 1)
}

// The first ten loads, by first load and then next load from each answer, in one number.
fn list_loads(plan: &mut Plan<Band>, lent: &mut Lent) -> Result<u64, Refusal> {
    let mut load = [0u8; 32];
    plan.first_load(&mut load, &mut lent.forward, &mut lent.backward)?;
    let mut sum = checksum(0, &load);
    for _ in 0..9u8 {
        plan.next_load(&mut load, &mut lent.forward, &mut lent.backward)?;
        sum = checksum(sum, &load);
    }
    Ok(sum)
}

// A line for each call.
pub fn print_calls(timing: &Timing, lent: &mut Lent, case: &Case, goal: Band) -> io::Result<()> {
    let blank = |_lent: &mut Lent| Ok(Plan::blank(goal));
    let ready = |lent: &mut Lent| settled(case, goal, lent);
    timing.print("settle", lent, &blank, |plan, lent| {
        Ok(u64::from(plan.settle(case, &mut lent.forward, &mut lent.backward)?))
    })?;
    timing.print("rule out", lent, &ready, |plan, lent| {
        Ok(u64::from(plan.rule_out(1, 1, &mut lent.forward, &mut lent.backward)?))
    })?;
    timing.print("tally of loads", lent, &ready, |plan, lent| {
        Ok(u64::from(plan.tally::<Loads>(&mut lent.numbers)?))
    })?;
    timing.print("tally of lowest", lent, &ready, |plan, lent| {
        Ok(price_in(plan.tally::<Lowest>(&mut lent.prices)?))
    })?;
    timing.print("tally of highest", lent, &ready, |plan, lent| {
        Ok(price_in(plan.tally::<Highest>(&mut lent.prices)?))
    })?;
    timing.print("list 10 loads", lent, &ready, list_loads)
}
