// The answer to a case file, as the program writes it: the line of its fault, or the lines of its plan.
#![tactic(auto)]

mod planned;

use casefile::answers::Answers;
use casefile::running::run;
use faults::fault::FileFault;
use planned::write_plan;
use reader::reader::Reader;
use report::lines::RuledLine;
use sequence::ruled::Ruled;
use std::fmt;

// The tables and the slices of values that are lent to the plan have so many cells.
pub(crate) const CELLS: usize = 4096;

// One line for each rule-out.
fn write_rows<W: fmt::Write>(out: &mut W, rows: &[Ruled]) -> fmt::Result {
    for row in rows {
        let line = RuledLine(*row);
        writeln!(out, "{line}")?;
    }
    Ok(())
}

// A fault is the only line.
fn write_fault<W: fmt::Write>(out: &mut W, fault: FileFault) -> fmt::Result {
    writeln!(out, "{fault}")
}

// Reads the file with tables of `CELLS` cells and writes the answer. Nothing is written before the whole file has been read.
pub fn write_answer<W: fmt::Write>(file: &[u8], out: &mut W) -> fmt::Result {
    let mut reader = Reader::new();
    let mut answers = Answers::new();
    let mut forward = [0; CELLS];
    let mut backward = [0; CELLS];
    if let Err(fault) = run(file, &mut reader, &mut forward, &mut backward, &mut answers) {
        return write_fault(out, fault);
    }
    write_rows(out, answers.as_slice())?;
    let plan = reader.plan().ok_or(fmt::Error)?;
    write_plan(out, reader.case(), plan, &mut forward, &mut backward)
}
