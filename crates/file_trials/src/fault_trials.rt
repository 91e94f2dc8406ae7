// Every fault number with its place.
use crate::files::Piece::{
    Band, Byte, End, FourKinds, Head, Kind, Kinds, List, NoLoad, RuleOut, Stride,
};
use crate::files::{fault, first_other, read};
use faults::fault::Layer::{Field, File, Plan};
use std::alloc::AllocError;

// Field faults: 16 before 17 before 18 before 16.
#[test]
fn fields(rt: HostRuntime) -> Result<(), AllocError> {
    let first = first_other(
        rt.alloc(),
        &[
            (&[], fault(Field, 0, 16)),
            (&[Byte(6), Byte(0)], fault(Field, 0, 16)),
            (&[Head(6, 0)], fault(Field, 0, 17)),
            (&[Head(255, 999)], fault(Field, 0, 17)),
            (&[Head(2, 5)], fault(Field, 0, 18)),
            (&[Byte(1), Byte(12), Byte(0)], fault(Field, 0, 18)),
            (&[Head(2, 4), Byte(0)], fault(Field, 0, 16)),
            (&[Head(0, 1)], fault(Field, 0, 18)),
        ],
    )?;
    assert_eq!(rt; first, None);
    Ok(())
}

// A list has an even length of 2 to 32.
#[test]
fn lengths_of_lists(rt: HostRuntime) -> Result<(), AllocError> {
    let first = first_other(
        rt.alloc(),
        &[
            (&[Head(3, 0)], fault(Field, 0, 18)),
            (&[Head(3, 3)], fault(Field, 0, 18)),
            (&[Head(3, 34)], fault(Field, 0, 18)),
            (&[Head(3, 32)], fault(Field, 0, 16)),
            (&[Head(3, 2), Byte(0), Byte(9)], fault(Field, 5, 16)),
        ],
    )?;
    assert_eq!(rt; first, None);
    Ok(())
}

// A kind: over 32, over a limit, with no count. The tests go in this order.
#[test]
fn kinds(rt: HostRuntime) -> Result<(), AllocError> {
    let first = first_other(
        rt.alloc(),
        &[
            (&[Kinds(32), Band(0, 9), End], Ok(())),
            (&[Kinds(32)], fault(Field, 480, 16)),
            (&[Kinds(32), Kind(5000, 0, 0)], fault(Plan, 480, 1)),
            (&[Kind(4095, 1000, 1), Kind(4096, 0, 0)], fault(Plan, 15, 2)),
            (&[Kind(0, 1001, 1)], fault(Plan, 0, 2)),
            (&[Kind(0, 0, 0)], fault(Plan, 0, 3)),
        ],
    )?;
    assert_eq!(rt; first, None);
    Ok(())
}

// Goals and strides that cannot be made.
#[test]
fn goals(rt: HostRuntime) -> Result<(), AllocError> {
    let first = first_other(
        rt.alloc(),
        &[
            (&[Band(6, 5)], fault(Plan, 0, 4)),
            (&[Band(6, 4096)], fault(Plan, 0, 4)),
            (&[List(5, 6, 6)], fault(Plan, 0, 4)),
            (&[Band(5, 5), Stride(0, 0)], fault(Plan, 7, 5)),
            (&[List(1, 2, 3), Stride(4, 4)], fault(Plan, 9, 5)),
            (&[List(1, 2, 3), Stride(4097, 4)], fault(Plan, 9, 5)),
        ],
    )?;
    assert_eq!(rt; first, None);
    Ok(())
}

// Settle's refusals have the place of the band or list, those of a rule-out its own.
#[test]
fn plans(rt: HostRuntime) -> Result<(), AllocError> {
    let first = first_other(
        rt.alloc(),
        &[
            (&[Band(0, 0), End], fault(Plan, 0, 6)),
            (&[FourKinds(10, 819), End], fault(Plan, 60, 7)),
            (&[NoLoad, End], fault(Plan, 15, 8)),
            (&[NoLoad, Stride(1, 0), End], fault(Plan, 15, 8)),
            (
                &[FourKinds(10, 12), RuleOut(2, 1), RuleOut(4, 1)],
                fault(Plan, 72, 8),
            ),
            (&[FourKinds(10, 12), RuleOut(5, 0)], fault(Plan, 67, 10)),
            (&[FourKinds(10, 12), RuleOut(1, 64)], fault(Plan, 67, 10)),
            (
                &[FourKinds(10, 12), RuleOut(2, 1), RuleOut(2, 1)],
                fault(Plan, 72, 11),
            ),
        ],
    )?;
    assert_eq!(rt; first, None);
    Ok(())
}

// 16,384 bytes are read, one more are not.
#[test]
fn lengths_of_files(rt: HostRuntime) {
    assert_eq!(rt; read(&[0; 16384]), fault(File, 0, 19));
    assert_eq!(rt; read(&[0; 16385]), fault(File, 16384, 20));
}
