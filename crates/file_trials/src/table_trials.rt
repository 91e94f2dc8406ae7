// What the tables, the case and the answers are after each outcome.
use crate::files::Piece::{Band, End, FourKinds, Kind, NoLoad, RuleOut};
use crate::files::{Piece, file_of};
use casefile::answers::Answers;
use casefile::running::run;
use reader::reader::Reader;
use std::alloc::{AllocError, Global};

// How many cells hold the value.
fn holding(table: &[u8], value: u8) -> usize {
    table.iter().filter(|cell| **cell == value).count()
}

// Of two tables that held 7 in each of 4,096 cells: how many cells hold 7 after the file, and how many hold 1; then the kinds and the answers.
#[derive(Clone, Copy, PartialEq, Debug)]
struct Cells {
    sevens: [usize; 2],
    ones: [usize; 2],
    kinds: usize,
    answers: usize,
}

fn cells_after(alloc: Global, pieces: &[Piece]) -> Result<Cells, AllocError> {
    let file = file_of(alloc, pieces)?;
    let mut reader = Reader::new();
    let mut answers = Answers::new();
    let mut forward = [7u8; 4096];
    let mut backward = [7u8; 4096];
    let _ = run(
        &file,
        &mut reader,
        &mut forward,
        &mut backward,
        &mut answers,
    );
    Ok(Cells {
        sevens: [holding(&forward, 7), holding(&backward, 7)],
        ones: [holding(&forward, 1), holding(&backward, 1)],
        kinds: reader.case().kinds().len(),
        answers: answers.as_slice().len(),
    })
}

fn unmarked(sevens: usize, kinds: usize) -> Cells {
    Cells {
        sevens: [sevens; 2],
        ones: [0; 2],
        kinds,
        answers: 0,
    }
}

// The tables stay until settle has found that they are long enough.
#[test]
fn before_settle(rt: HostRuntime) -> Result<(), AllocError> {
    assert_eq!(rt; cells_after(rt.alloc(), &[NoLoad])?, unmarked(4096, 1));
    assert_eq!(rt;
        cells_after(rt.alloc(), &[NoLoad, Kind(1, 0, 1)])?,
        unmarked(4096, 1)
    );
    Ok(())
}

// So they do at settle's 6 and 7.
#[test]
fn refused_settle(rt: HostRuntime) -> Result<(), AllocError> {
    assert_eq!(rt;
        cells_after(rt.alloc(), &[Band(0, 0), End])?,
        unmarked(4096, 0)
    );
    assert_eq!(rt;
        cells_after(rt.alloc(), &[FourKinds(10, 819), End])?,
        unmarked(4096, 4)
    );
    Ok(())
}

// Settle's 8 clears the needed cells, here two of each table.
#[test]
fn no_load_fits(rt: HostRuntime) -> Result<(), AllocError> {
    assert_eq!(rt; cells_after(rt.alloc(), &[NoLoad, End])?, unmarked(4094, 1));
    Ok(())
}

// After an accepted settle a fault leaves the marks of the plan in the 65 needed cells, and the answers up to it.
#[test]
fn after_settle(rt: HostRuntime) -> Result<(), AllocError> {
    let settled = cells_after(rt.alloc(), &[FourKinds(10, 12), RuleOut(2, 1), End])?;
    assert_eq!(rt; settled.sevens[0], 4031);
    assert_eq!(rt; settled.answers, 1);
    let faulty = cells_after(
        rt.alloc(),
        &[FourKinds(10, 12), RuleOut(2, 1), RuleOut(4, 1)],
    )?;
    assert_eq!(rt; faulty, settled);
    Ok(())
}
