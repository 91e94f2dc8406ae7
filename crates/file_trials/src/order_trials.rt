// The order of fields, and of the tests of one field.
use crate::files::Piece::{Band, Byte, End, FourKinds, Head, Kind, List, NoLoad, RuleOut, Stride};
use crate::files::{fault, first_other};
use faults::fault::Layer::{Field, File, Plan};
use std::alloc::AllocError;

// Before a goal only kinds may stand.
#[test]
fn before_the_goal(rt: HostRuntime) -> Result<(), AllocError> {
    let first = first_other(
        rt.alloc(),
        &[
            (&[End], fault(File, 0, 19)),
            (&[Stride(0, 0)], fault(File, 0, 19)),
            (&[RuleOut(1, 1)], fault(File, 0, 19)),
            (&[Kind(1, 0, 3), Stride(0, 0)], fault(File, 15, 19)),
        ],
    )?;
    assert_eq!(rt; first, None);
    Ok(())
}

// After a goal neither a kind nor a second goal, and no settle before that is seen, though settle would say 8.
#[test]
fn after_the_goal(rt: HostRuntime) -> Result<(), AllocError> {
    let first = first_other(
        rt.alloc(),
        &[
            (&[NoLoad], fault(Field, 22, 16)),
            (&[NoLoad, Kind(9999, 0, 0)], fault(File, 22, 19)),
            (&[NoLoad, List(1, 2, 3)], fault(File, 22, 19)),
            (&[NoLoad, Stride(2, 0), Stride(2, 0)], fault(File, 29, 19)),
            (&[NoLoad, Stride(2, 0), Band(9, 1)], fault(File, 29, 19)),
        ],
    )?;
    assert_eq!(rt; first, None);
    Ok(())
}

// After a rule-out only rule-outs and the end.
#[test]
fn after_a_rule_out(rt: HostRuntime) -> Result<(), AllocError> {
    let first = first_other(
        rt.alloc(),
        &[
            (
                &[FourKinds(10, 12), RuleOut(2, 1), Stride(2, 0)],
                fault(File, 72, 19),
            ),
            (
                &[FourKinds(10, 12), RuleOut(2, 1), Band(9, 1)],
                fault(File, 72, 19),
            ),
            (
                &[FourKinds(10, 12), RuleOut(2, 1), Kind(0, 0, 0)],
                fault(File, 72, 19),
            ),
            (&[FourKinds(10, 12), RuleOut(2, 1), End], Ok(())),
        ],
    )?;
    assert_eq!(rt; first, None);
    Ok(())
}

// Nothing may follow the end, be it a byte, two or a field.
#[test]
fn after_the_end(rt: HostRuntime) -> Result<(), AllocError> {
    let first = first_other(
        rt.alloc(),
        &[
            (&[FourKinds(10, 12), End], Ok(())),
            (&[FourKinds(10, 12), End, Byte(0)], fault(File, 70, 19)),
            (
                &[FourKinds(10, 12), End, Byte(0), Byte(9)],
                fault(File, 70, 19),
            ),
            (&[FourKinds(10, 12), End, End], fault(File, 70, 19)),
        ],
    )?;
    assert_eq!(rt; first, None);
    Ok(())
}

// The field test comes before the sequence test, that before settle, and settle before the field's own operation.
#[test]
fn tests_of_a_field(rt: HostRuntime) -> Result<(), AllocError> {
    let first = first_other(
        rt.alloc(),
        &[
            (&[Head(4, 3)], fault(Field, 0, 18)),
            (&[NoLoad, Head(5, 2)], fault(Field, 22, 16)),
            (&[NoLoad, Head(6, 2)], fault(Field, 22, 17)),
            (&[NoLoad, Head(1, 4)], fault(Field, 22, 18)),
            (&[NoLoad, RuleOut(0, 64)], fault(Plan, 15, 8)),
            (
                &[Kind(7, 0, 0b11), Band(0, 0), RuleOut(0, 64)],
                fault(Plan, 22, 10),
            ),
        ],
    )?;
    assert_eq!(rt; first, None);
    Ok(())
}
