// The line of a call, with the best time of several turns.
use crate::lent::{Lent, checksum};
use model::goal::band::Band;
use model::refusal::Refusal;
use plan::plan::Plan;
use std::io;
use std::time::{Duration, Instant};

// The input whose calls are made, by its name, and how many turns are asked for.
#[derive(Clone, Copy)]
pub struct Timing<'a> {
    pub rt: &'a HostRuntime,
    pub name: &'a str,
    pub turns: Option<u32>,
}

impl Timing<'_> {
    // What one turn answers, and how long the call takes in it.
    fn turn<P, C>(
        &self,
        lent: &mut Lent,
        prepare: &P,
        call: &C,
    ) -> io::Result<(Result<u64, Refusal>, Duration)>
    where
        P: Fn(&mut Lent) -> Result<Plan<Band>, Refusal>,
        C: Fn(&mut Plan<Band>, &mut Lent) -> Result<u64, Refusal>,
        requires prepare { P.IsAlwaysCallable prepare.now }
        requires call { C.IsAlwaysCallable call.now }
    {
        match prepare(lent) {
            Ok(mut plan) => {
                let start = Instant::now(self.rt)?;
                let answer = call(&mut plan, lent);
                Ok((answer, start.elapsed(self.rt)?))
            }
            Err(refusal) => Ok((Err(refusal), Duration::ZERO)),
        }
    }

    // What the call answers, and a checksum of the marks that it leaves.
    fn print_answer(
        &self,
        called: &str,
        lent: &Lent,
        answer: Result<u64, Refusal>,
    ) -> io::Result<()> {
        let name = self.name;
        match answer {
            Ok(value) => {
                let marks = checksum(checksum(0, &lent.forward), &lent.backward);
                print!(self.rt; "{name}, {called}: {value} marks {marks}")
            }
            Err(refusal) => {
                let number = refusal.number();
                print!(self.rt; "{name}, {called}: refused {number}")
            }
        }
    }

    // One line: what the call answers, a checksum of the marks that it leaves, and the best time where turns are asked for. Each turn makes
    // the call with a plan that is prepared for it.
    pub(crate) fn print<P, C>(
        &self,
        called: &str,
        lent: &mut Lent,
        prepare: P,
        call: C,
    ) -> io::Result<()>
    where
        P: Fn(&mut Lent) -> Result<Plan<Band>, Refusal>,
        C: Fn(&mut Plan<Band>, &mut Lent) -> Result<u64, Refusal>,
        requires prepare { P.IsAlwaysCallable prepare }
        requires call { C.IsAlwaysCallable call }
    {
        let (answer, mut best) = self.turn(lent, &prepare, &call)?;
        for _ in 1..self.turns.unwrap_or(1) {
            let (_, time) = self.turn(lent, &prepare, &call)?;
            best = best.min(time);
        }
        self.print_answer(called, lent, answer)?;
        if self.turns.is_some() {
            let nanos = best.as_nanos();
            print!(self.rt; " ns {nanos}")?;
        }
        println!(self.rt; "")
    }
}
