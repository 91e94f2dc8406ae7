// Lists all loads of several cases by first load and next load, and compares them with those of a plain lister.
#![tactic(auto)]

mod lister;

use lister::{Lister, total_of};
use model::case::Case;
use model::goal::Goal;
use model::goal::band::Band;
use model::goal::list::TotalList;
use model::goal::stride::Stride;
use model::refusal::Refusal;
use plan::plan::Plan;
use samples::worked::{EVERY_COUNT, FOUR_KINDS, GAPS, LARGE_KINDS, SIX_KINDS};
use samples::{Sample, case_of};
use std::io;

// More lists of counts than any of the cases has.
const MOST_LISTS: usize = 5000;

// What was compared: how many cases, how many of them agree, and how many loads they have.
#[derive(Clone, Copy)]
struct Score {
    cases: u64,
    agree: u64,
    loads: u64,
}

impl Score {
    fn new() -> Score {
        Score {
            cases: 0,
            agree: 0,
            loads: 0,
        }
    }

    // Counts a case, with its loads if both lists have the same.
    fn count(&mut self, shared: Option<u64>) {
        self.cases = self.cases.saturating_add(1);
        if let Some(loads) = shared {
            self.agree = self.agree.saturating_add(1);
            self.loads = self.loads.saturating_add(loads);
        }
    }
}

fn print_load(rt: &HostRuntime, load: &[u8]) -> io::Result<()> {
    print!(rt; "  load")?;
    for count in load {
        print!(rt; " {count}")?;
    }
    println!(rt; "")
}

// The plain lister's next list of counts that fits.
fn next_fitting<G: Goal>(lister: &mut Lister<'_>, case: &Case, goal: &G) -> Option<[u8; 32]> {
    lister
        .by_ref()
        .take(MOST_LISTS)
        .find(|counts| goal.admits(total_of(case.kinds(), counts)))
}

// How many loads both lists have, if they are the same to their ends, where the plan answers with refusal 15.
fn loads_shared<G: Goal + Drop>(
    rt: &HostRuntime,
    plan: &Plan<G>,
    case: &Case,
) -> io::Result<Option<u64>> {
    let mut forward = [0u8; 8192];
    let mut backward = [0u8; 8192];
    let mut lister = Lister::new(case.kinds());
    let mut bytes = [0u8; 32];
    let load = &mut bytes[..case.kinds().len()];
    let mut answer = plan.first_load(load, &mut forward, &mut backward);
    for loads in 0..MOST_LISTS as u64 {
        match (answer, next_fitting(&mut lister, case, plan.goal())) {
            (Ok(()), Some(counts)) if counts.starts_with(load) => print_load(rt, load)?,
            (Err(Refusal::EndOfLoads), None) => return Ok(Some(loads)),
            _ => return Ok(None),
        }
        // the plan fills the tables itself, whatever they hold
        forward.fill(0);
        backward.fill(0);
        answer = plan.next_load(load, &mut forward, &mut backward);
    }
    Ok(None)
}

// Settles the case under the goal and compares the loads. A refused settle agrees if it says that no load fits, and none does.
fn settled_loads<G: Goal + Drop>(
    rt: &HostRuntime,
    case: &Case,
    goal: G,
) -> io::Result<Option<u64>> {
    let mut plan = Plan::blank(goal);
    let mut forward = [0u8; 8192];
    let mut backward = [0u8; 8192];
    if let Err(refusal) = plan.settle(case, &mut forward, &mut backward) {
        let number = refusal.number();
        println!(rt; "  settle is refused with {number}")?;
        let fitting = next_fitting(&mut Lister::new(case.kinds()), case, plan.goal());
        let agrees = refusal == Refusal::NoLoad && fitting.is_none();
        return Ok(agrees.then_some(0));
    }
    let shared = loads_shared(rt, &plan, case)?;
    match shared {
        Some(loads) => println!(rt; "  loads, the same in both lists: {loads}")?,
        None => println!(rt; "  not the same")?,
    }
    Ok(shared)
}

// Compares the loads of the case under the goal.
fn compare<G: Goal + Drop>(
    rt: &HostRuntime,
    name: &str,
    rows: &[Sample],
    goal: Result<G, Refusal>,
    score: &mut Score,
) -> io::Result<()> {
    let (Ok(case), Ok(goal)) = (case_of(rows), goal) else {
        return println!(rt; "{name}: the case or the goal was refused");
    };
    println!(rt; "{name}")?;
    score.count(settled_loads(rt, &case, goal)?);
    Ok(())
}

// Every second total, the even ones, of a band.
fn even(low: u64, high: u64) -> Result<Stride<Band>, Refusal> {
    Stride::over(Band::new(low, high)?, 2, 0).map_err(|back| back.refusal())
}

fn compare_bands(rt: &HostRuntime, score: &mut Score) -> io::Result<()> {
    let small = "sizes 2 3 4 5, counts 0 to 1, totals 10 to 12";
    compare(rt, small, &FOUR_KINDS, Band::new(10, 12), score)?;
    let large = "sizes 27 37 45 53, counts 0 to 3, totals 80 to 82";
    compare(rt, large, &LARGE_KINDS, Band::new(80, 82), score)?;
    let gapped = "sizes 0 1 3, counts with gaps, totals 3 to 8";
    compare(rt, gapped, &GAPS, Band::new(3, 8), score)?;
    let highest = "size 65, counts 0 to 63, total 4095";
    compare(rt, highest, &EVERY_COUNT, Band::new(4095, 4095), score)?;
    let six = "sizes 1 to 6, counts 0 to 3, totals 59 to 60";
    compare(rt, six, &SIX_KINDS, Band::new(59, 60), score)?;
    let none = "sizes 2 3 4 5, counts 0 to 1, total 1";
    compare(rt, none, &FOUR_KINDS, Band::new(1, 1), score)
}

fn compare_others(rt: &HostRuntime, score: &mut Score) -> io::Result<()> {
    let small = "sizes 2 3 4 5, counts 0 to 1, even totals of 10 to 12";
    compare(rt, small, &FOUR_KINDS, even(10, 12), score)?;
    let large = "sizes 27 37 45 53, counts 0 to 3, even totals of 80 to 82";
    compare(rt, large, &LARGE_KINDS, even(80, 82), score)?;
    let ends = "sizes 2 3 4 5, counts 0 to 1, totals 0 7 14";
    compare(rt, ends, &FOUR_KINDS, TotalList::new(&[0, 7, 14]), score)?;
    let gapped = "sizes 0 1 3, counts with gaps, totals 5 14 17";
    compare(rt, gapped, &GAPS, TotalList::new(&[5, 14, 17]), score)
}

fn main(rt: HostRuntime) -> io::Result<()> {
    let mut score = Score::new();
    compare_bands(&rt, &mut score)?;
    compare_others(&rt, &mut score)?;
    let Score {
        cases,
        agree,
        loads,
    } = score;
    println!(rt; "compared {cases} cases with {loads} loads: {agree} agree")
}
