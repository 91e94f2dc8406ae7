// Kinds, cases, sets of counts and goals.
use crate::common::{refusal_of, stride_over};
use model::case::Case;
use model::goal::Goal;
use model::goal::band::Band;
use model::goal::list::TotalList;
use model::goal::rising::RisingTotals;
use model::goal::stride::Stride;
use model::sets::{contains, how_many};
use std::test::Fail;

#[test]
fn a_case_takes_32_kinds(rt: HostRuntime) -> Result<(), Fail> {
    let mut case = Case::new();
    for size in 0..32u64 {
        assert_eq!(rt; case.add(size, size, 1)?, size + 1);
    }
    assert_eq!(rt; refusal_of(case.add(0, 0, 1)), Some(1));
    assert_eq!(rt; case.kinds().len(), 32);
    Ok(())
}

#[test]
fn a_kind_has_limits(rt: HostRuntime) {
    let mut case = Case::new();
    for (size, price, allowed, refused) in [
        (4095, 1000, u64::MAX, None),
        (4096, 0, 1, Some(2)),
        (0, 1001, 1, Some(2)),
        (u64::MAX, u64::MAX, 0, Some(2)),
        (0, 0, 0, Some(3)),
        (0, 0, 1 << 63, None),
    ] {
        assert_eq!(rt;
            refusal_of(case.add(size, price, allowed)),
            refused,
            "{size} {price}"
        );
    }
    let kinds = case.kinds();
    assert_eq!(rt; kinds.len(), 2);
    assert_eq!(rt; kinds[0].size(), 4095);
    assert_eq!(rt; kinds[0].price(), 1000);
    assert_eq!(rt; kinds[1].allowed(), 1 << 63);
}

#[test]
fn sets_hold_counts(rt: HostRuntime) {
    assert_eq!(rt; how_many(0), 0);
    assert_eq!(rt; how_many(0b1011), 3);
    assert_eq!(rt; how_many(0x8000_0000_0000_0001), 2);
    assert_eq!(rt; how_many(u64::MAX), 64);
    assert!(rt; contains(0b1011, 0) && contains(0b1011, 3) && !contains(0b1011, 2));
    assert!(rt; contains(1 << 63, 63) && !contains(u64::MAX, 64) && !contains(u64::MAX, u64::MAX));
}

#[test]
fn bands(rt: HostRuntime) -> Result<(), Fail> {
    for (low, high, refused) in [
        (5, 5, None),
        (6, 5, Some(4)),
        (0, 4095, None),
        (0, 4096, Some(4)),
    ] {
        assert_eq!(rt;
            refusal_of(Band::new(low, high)),
            refused,
            "{low} to {high}"
        );
    }
    let band = Band::new(10, 12)?;
    assert!(rt; band.low() == 10 && band.high() == 12 && band.top() == 12);
    assert!(rt; !band.admits(9) && band.admits(10) && band.admits(12) && !band.admits(13));
    assert!(rt; !band.admits(u64::MAX));
    Ok(())
}

#[test]
fn lists(rt: HostRuntime) -> Result<(), Fail> {
    let long = [
        1u64, 2, 3, 4, 5, 6, 7, 8, 9, 10, 11, 12, 13, 14, 15, 4095, 4096,
    ];
    assert_eq!(rt; refusal_of(TotalList::new(&long[0..0])), Some(4));
    assert_eq!(rt; refusal_of(TotalList::new(&long[0..1])), None);
    assert_eq!(rt; refusal_of(TotalList::new(&long[0..16])), None);
    assert_eq!(rt; refusal_of(TotalList::new(&long)), Some(4));
    assert_eq!(rt; refusal_of(TotalList::new(&long[15..17])), Some(4));
    assert_eq!(rt; refusal_of(TotalList::new(&[3, 3])), Some(4));
    assert_eq!(rt; refusal_of(TotalList::new(&[3, 5, 4])), Some(4));
    let list = TotalList::new(&[0, 7, 4095])?;
    assert_eq!(rt; list.top(), 4095);
    assert_eq!(rt; list.totals(), [0, 7, 4095].as_slice());
    assert!(rt; list.admits(0) && list.admits(7) && list.admits(4095));
    assert!(rt; !list.admits(1) && !list.admits(4094) && !list.admits(4096));
    Ok(())
}

#[test]
fn rising_totals(rt: HostRuntime) -> Result<(), Fail> {
    assert!(rt; RisingTotals::<2>::new(&[1, 2, 3]).is_none());
    let totals = RisingTotals::<3>::new(&[2, 4]).ok_or("the totals were refused")?;
    assert_eq!(rt; totals.last(), Some(4));
    assert!(rt; totals.contains(2) && !totals.contains(3) && !totals.contains(5));
    Ok(())
}

// The refusal of a stride over the band from 0 to 9, if any. A refusal hands that band back.
fn stride_refusal(modulus: u64, remainder: u64) -> Result<Option<u8>, Fail> {
    match Stride::over(Band::new(0, 9)?, modulus, remainder) {
        Ok(_) => Ok(None),
        Err(refused) => {
            let number = refused.refusal().number();
            if refused.given().top() != 9 {
                return Err(Fail::new("another goal was handed back"));
            }
            Ok(Some(number))
        }
    }
}

#[test]
fn strides(rt: HostRuntime) -> Result<(), Fail> {
    for (modulus, remainder, refused) in [
        (0, 0, Some(5)),
        (1, 0, None),
        (4096, 4095, None),
        (4097, 0, Some(5)),
        (7, 7, Some(5)),
        (7, 6, None),
    ] {
        assert_eq!(rt;
            stride_refusal(modulus, remainder)?,
            refused,
            "{modulus} {remainder}"
        );
    }
    Ok(())
}

// How many totals a goal admits.
fn admitted<G: Goal>(goal: &G) -> usize {
    (0..4200u64).filter(|total| goal.admits(*total)).count()
}

#[test]
fn a_stride_over_a_stride_over_a_list(rt: HostRuntime) -> Result<(), Fail> {
    let even = stride_over(TotalList::new(&[0, 6, 7, 12, 18, 24])?, 2, 0)?;
    assert_eq!(rt; admitted(&even), 5);
    let fourth = stride_over(even, 4, 2)?;
    assert!(rt; fourth.modulus() == 4 && fourth.remainder() == 2 && fourth.below().modulus() == 2);
    assert_eq!(rt; fourth.top(), 24);
    assert_eq!(rt; admitted(&fourth), 2);
    assert!(rt; fourth.admits(6) && fourth.admits(18));
    Ok(())
}

#[test]
fn a_goal_may_admit_nothing(rt: HostRuntime) -> Result<(), Fail> {
    let none = stride_over(TotalList::new(&[1, 3, 5])?, 2, 0)?;
    assert_eq!(rt; none.top(), 5);
    assert_eq!(rt; admitted(&none), 0);
    Ok(())
}
