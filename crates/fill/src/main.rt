// Settles one worked case, made through the library, under two goals and prints what stands, the first load and the three tallies.
#![tactic(auto)]

use measures::loads::Loads;
use measures::prices::{Highest, Lowest};
use model::case::Case;
use model::goal::Goal;
use model::goal::band::Band;
use model::goal::stride::Stride;
use model::kind::Kind;
use model::refusal::Refusal;
use model::sets::{contains, how_many};
use plan::plan::Plan;
use samples::case_of;
use samples::worked::FOUR_KINDS;
use std::io;

// Why the program ends before all is printed.
#[derive(Debug, Drop)]
enum Stop {
    // A call is refused.
    Refused(Refusal),
    // A line cannot be printed.
    Unprinted(io::Error),
}

impl From<Refusal> for Stop {
    fn from(refusal: Refusal) -> Stop {
        Stop::Refused(refusal)
    }
}

impl From<io::Error> for Stop {
    fn from(error: io::Error) -> Stop {
        Stop::Unprinted(error)
    }
}

// The counts of a set, each after a space, and the end of the line.
fn print_counts(rt: &HostRuntime, set: u64) -> io::Result<()> {
    for count in 0..64u64 {
        if contains(set, count) {
            print!(rt; " {count}")?;
        }
    }
    println!(rt; "")
}

// One line for a kind: its number, size and price, how many counts are allowed, and which.
fn print_kind(rt: &HostRuntime, number: usize, kind: &Kind) -> io::Result<()> {
    let size = kind.size();
    let price = kind.price();
    let many = how_many(kind.allowed());
    print!(rt; "case kind {number} size {size} price {price} counts {many}:")?;
    print_counts(rt, kind.allowed())
}

// One line for a goal: its top, and the totals that it admits.
fn print_goal<G: Goal>(rt: &HostRuntime, name: &str, goal: &G) -> io::Result<()> {
    let top = goal.top();
    print!(rt; "{name} top {top} admits:")?;
    for total in 0..4096u64 {
        if goal.admits(total) {
            print!(rt; " {total}")?;
        }
    }
    println!(rt; "")
}

// One line for each kind: the counts that stand.
fn print_standing<G: Goal + Drop>(
    rt: &HostRuntime,
    plan: &Plan<G>,
    many: usize,
) -> Result<(), Stop> {
    for kind in 1..=many as u64 {
        let set = plan.standing(kind)?;
        print!(rt; "kind {kind}")?;
        print_counts(rt, set)?;
    }
    Ok(())
}

// A price, or none.
fn print_price(rt: &HostRuntime, name: &str, price: Option<u32>) -> io::Result<()> {
    match price {
        Some(value) => println!(rt; "{name} {value}"),
        None => println!(rt; "{name} none"),
    }
}

// The number of loads, the lowest price and the highest.
fn print_tallies<G: Goal + Drop>(rt: &HostRuntime, plan: &Plan<G>) -> Result<(), Stop> {
    let mut numbers = [0u32; 4096];
    let loads = plan.tally::<Loads>(&mut numbers)?;
    println!(rt; "loads {loads}")?;
    let mut prices: [Option<u32>; 4096] = [None; 4096];
    let lowest = plan.tally::<Lowest>(&mut prices)?;
    print_price(rt, "lowest", lowest)?;
    let highest = plan.tally::<Highest>(&mut prices)?;
    print_price(rt, "highest", highest)?;
    Ok(())
}

// One line: the first load of the plan.
fn print_first<G: Goal + Drop>(rt: &HostRuntime, plan: &Plan<G>, many: usize) -> Result<(), Stop> {
    let mut forward = [0u8; 4096];
    let mut backward = [0u8; 4096];
    let mut counts = [0u8; 32];
    let load = &mut counts[..many.min(32)];
    plan.first_load(load, &mut forward, &mut backward)?;
    print!(rt; "first load")?;
    for count in load.iter() {
        print!(rt; " {count}")?;
    }
    println!(rt; "")?;
    Ok(())
}

// What stands of the case under the goal, its first load, and its tallies.
fn print_plan<G: Goal + Drop>(rt: &HostRuntime, case: &Case, goal: G) -> Result<(), Stop> {
    let mut plan = Plan::blank(goal);
    let mut forward = [0u8; 4096];
    let mut backward = [0u8; 4096];
    let settled = plan.settle(case, &mut forward, &mut backward)?;
    println!(rt; "settled {settled}")?;
    let many = case.kinds().len();
    print_standing(rt, &plan, many)?;
    print_first(rt, &plan, many)?;
    print_tallies(rt, &plan)
}

// The kinds of the worked case, and its plans under a band and under every second total of it.
fn print_worked(rt: &HostRuntime) -> Result<(), Stop> {
    let case = case_of(&FOUR_KINDS)?;
    for (number, kind) in (1..).zip(case.kinds()) {
        print_kind(rt, number, kind)?;
    }
    let band = Band::new(10, 12)?;
    print_goal(rt, "band 10 12", &band)?;
    print_plan(rt, &case, band)?;
    let stride = Stride::over(band, 2, 0).map_err(|back| back.refusal())?;
    print_goal(rt, "stride 2 0 over band 10 12", &stride)?;
    print_plan(rt, &case, stride)
}

fn main(rt: HostRuntime) -> io::Result<()> {
    match print_worked(&rt) {
        Ok(()) => Ok(()),
        Err(Stop::Refused(refusal)) => {
            let number = refusal.number();
            println!(rt; "refused {number}")
        }
        Err(Stop::Unprinted(error)) => Err(error),
    }
}
