// Does the planner's calls at 32 kinds and a top of 4,095, and prints what they answer. With a number of turns as its argument, it also prints
// the best time of so many turns.
#![tactic(auto)]

mod inputs;
mod lent;
mod timing;
mod work;

use inputs::{Input, band};
use lent::Lent;
use std::{env, io};
use timing::Timing;
use work::print_calls;

// How many turns the first argument asks for, if there is one.
fn turns_asked(rt: &HostRuntime) -> io::Result<Option<u32>> {
    Ok(
        env::args(rt)?
            .nth(1)
            .and_then(|word| word.parse::<u32>().ok()),
    )
}

// A line for each call with the input.
fn print_input(timing: Timing, input: Input, lent: &mut Lent) -> io::Result<()> {
    let (rt, name) = (timing.rt, timing.name);
    let (Ok(case), Ok(goal)) = (input.case(), band()) else {
        return println!(rt; "{name}: the case or the band was refused");
    };
    print_calls(&timing, lent, &case, goal)
}

fn main(rt: HostRuntime) -> io::Result<()> {
    let turns = turns_asked(&rt)?;
    let mut lent = Lent::new(rt.alloc())?;
    for (name, counts, first, step) in [
        ("2 counts", 2, 100, 6),
        ("8 counts", 8, 30, 2),
        ("64 counts", 64, 3, 2),
    ] {
        let input = Input {
            counts,
            first,
            step,
        };
        let timing = Timing {
            rt: &rt,
            name,
            turns,
        };
        print_input(timing, input, &mut lent)?;
    }
    Ok(())
}
