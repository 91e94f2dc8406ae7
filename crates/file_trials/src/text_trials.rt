// Stored files with the whole text that the program writes for them.
use crate::files::Piece::{End, FourKinds, Kind, List, RuleOut, Stride};
use crate::files::file_of;
use answering::write_answer;
use std::test::Fail;

// The four kinds with one rule-out, a file of 75 bytes.
#[test]
fn one_rule_out(rt: HostRuntime) -> Result<(), Fail> {
    let file = file_of(rt.alloc(), &[FourKinds(10, 12), RuleOut(2, 1), End])?;
    assert_eq!(rt; file.len(), 75);
    let mut text = String::new(rt.alloc());
    write_answer(&file, &mut text)?;
    assert_eq!(rt;
        text.as_str(),
        "ruled 2 1 gone 3\nplan 4 12\nkind 1 1\nkind 2 0\nkind 3 1\nkind 4 1\nloads 1\nlowest 95\nhighest 95\nfirst 1 0 1 1\n"
    );
    Ok(())
}

// With a second rule-out the fault is the only line.
#[test]
fn two_rule_outs(rt: HostRuntime) -> Result<(), Fail> {
    let pieces = [FourKinds(10, 12), RuleOut(2, 1), RuleOut(4, 1), End];
    let mut text = String::new(rt.alloc());
    write_answer(&file_of(rt.alloc(), &pieces)?, &mut text)?;
    assert_eq!(rt; text.as_str(), "fault plan 72 8\n");
    Ok(())
}

// An empty file, one byte too many, and a case that needs more than 4,096 cells.
#[test]
fn faults_of_files(rt: HostRuntime) -> Result<(), Fail> {
    let mut text = String::new(rt.alloc());
    write_answer(&[], &mut text)?;
    write_answer(&[0; 16385], &mut text)?;
    write_answer(&file_of(rt.alloc(), &[FourKinds(10, 819), End])?, &mut text)?;
    assert_eq!(rt;
        text.as_str(),
        "fault field 0 16\nfault file 16384 20\nfault plan 60 7\n"
    );
    Ok(())
}

// Four kinds at most three times each, under every second of three totals.
#[test]
fn a_list_under_a_stride(rt: HostRuntime) -> Result<(), Fail> {
    let pieces = [
        Kind(27, 0, 0b1111),
        Kind(37, 0, 0b1111),
        Kind(45, 0, 0b1111),
        Kind(53, 0, 0b1111),
        List(80, 81, 82),
        Stride(2, 0),
        End,
    ];
    let mut text = String::new(rt.alloc());
    write_answer(&file_of(rt.alloc(), &pieces)?, &mut text)?;
    assert_eq!(rt;
        text.as_str(),
        "plan 4 82\nkind 1 0 1\nkind 2 0 1\nkind 3 0 1\nkind 4 0 1\nloads 2\nlowest 0\nhighest 0\nfirst 0 1 1 0\n"
    );
    Ok(())
}
