// The lines, each as a type that shows it.
ghost use Rattle.std.specs.Prelude.{Some};
ghost use Rattle.report.specs.Lines.{first_line, kind_line, plan_line, ruled_line, tally_line, tally_word};

use crate::counts::{LoadCounts, SetCounts};
use sequence::ruled::Ruled;
use std::fmt;

// A rule-out with its answer.
#[derive(Clone, Copy)]
pub struct RuledLine(pub Ruled);

impl fmt::Display for RuledLine {
    ghost output = { λ x. Some (ruled_line x.0) };

    fn fmt<W: fmt::Write>(&self, f: &mut fmt::Formatter<W>) -> fmt::Result {
        let kind = self.0.kind();
        let count = self.0.count();
        let gone = self.0.gone();
        write!(f, "ruled {kind} {count} gone {gone}")
    }
}

// How many kinds the plan has, and its goal's top.
#[derive(Clone, Copy)]
pub struct PlanLine {
    pub kinds: u64,
    pub top: u64,
}

impl fmt::Display for PlanLine {
    ghost output = { λ x. Some (plan_line x.kinds x.top) };

    fn fmt<W: fmt::Write>(&self, f: &mut fmt::Formatter<W>) -> fmt::Result {
        let kinds = self.kinds;
        let top = self.top;
        write!(f, "plan {kinds} {top}")
    }
}

// A kind's number and the set of its standing counts.
#[derive(Clone, Copy)]
pub struct KindLine {
    pub kind: u64,
    pub set: u64,
}

impl fmt::Display for KindLine {
    ghost output = { λ x. Some (kind_line x.kind x.set) };

    fn fmt<W: fmt::Write>(&self, f: &mut fmt::Formatter<W>) -> fmt::Result {
        let kind = self.kind;
        let counts = SetCounts(self.set);
        write!(f, "kind {kind}{counts}")
    }
}

// What is tallied over the loads.
#[derive(Clone, Copy)]
pub enum Tally {
    // How many they are.
    Loads,
    // The lowest price of one.
    Lowest,
    // The highest price of one.
    Highest,
}

impl fmt::Display for Tally {
    ghost output = { λ t. Some (tally_word t) };

    fn fmt<W: fmt::Write>(&self, f: &mut fmt::Formatter<W>) -> fmt::Result {
        match self {
            Tally::Loads => write!(f, "loads"),
            Tally::Lowest => write!(f, "lowest"),
            Tally::Highest => write!(f, "highest"),
        }
    }
}

// What is tallied, and what it comes to.
#[derive(Clone, Copy)]
pub struct TallyLine {
    pub what: Tally,
    pub value: u32,
}

impl fmt::Display for TallyLine {
    ghost output = { λ x. Some (tally_line x.what x.value) };

    fn fmt<W: fmt::Write>(&self, f: &mut fmt::Formatter<W>) -> fmt::Result {
        let what = self.what;
        let value = self.value;
        write!(f, "{what} {value}")
    }
}

// The first load, count by count.
#[derive(Clone, Copy)]
pub struct FirstLine<'a>(pub &'a [u8]);

impl<'a> fmt::Display for FirstLine<'a> {
    ghost output = { λ x. Some (first_line x.0.now) };

    fn fmt<W: fmt::Write>(&self, f: &mut fmt::Formatter<W>) -> fmt::Result {
        let counts = LoadCounts(self.0);
        write!(f, "first{counts}")
    }
}
