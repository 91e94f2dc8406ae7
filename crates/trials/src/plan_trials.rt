// Plans: settling, standing sets and tallies.
use crate::common::{one_kind, refusal_of, stride_over};
use crate::matrices::Matrices;
use measures::loads::Loads;
use measures::prices::{Highest, Lowest};
use model::case::Case;
use model::goal::band::Band;
use model::goal::list::TotalList;
use model::refusal::Refusal;
use plan::plan::Plan;
use samples::worked::{FOUR_KINDS, LARGE_KINDS};
use samples::{Sample, case_of};
use std::test::Fail;

#[test]
fn four_kinds_stand(rt: HostRuntime) -> Result<(), Fail> {
    let case = case_of(&FOUR_KINDS)?;
    let mut plan = Plan::blank(Band::new(10, 12)?);
    let mut forward = [7u8; 70];
    let mut backward = [9u8; 70];
    assert!(rt; plan.is_blank());
    assert_eq!(rt; plan.settle(&case, &mut forward, &mut backward)?, 7);
    assert!(rt; !plan.is_blank());
    for (kind, set) in [(1, 0b11), (2, 0b11), (3, 0b11), (4, 0b10)] {
        assert_eq!(rt; plan.standing(kind)?, set, "kind {kind}");
    }
    // past the 65 needed cells nothing is touched
    assert!(rt; forward[64] == 1 && backward[64] == 1);
    assert!(rt; forward[65..] == [7; 5] && backward[65..] == [9; 5]);
    Ok(())
}

#[test]
fn four_kinds_tally(rt: HostRuntime) -> Result<(), Fail> {
    let case = case_of(&FOUR_KINDS)?;
    let mut plan = Plan::blank(Band::new(10, 12)?);
    let mut forward = [7u8; 65];
    let mut backward = [9u8; 65];
    plan.settle(&case, &mut forward, &mut backward)?;
    let mut numbers = [5u32; 66];
    let mut prices = [Some(5u32); 65];
    assert_eq!(rt; plan.tally::<Loads>(&mut numbers)?, 3);
    assert_eq!(rt; numbers[65], 5);
    assert_eq!(rt; plan.tally::<Lowest>(&mut prices)?, Some(85));
    assert_eq!(rt; plan.tally::<Highest>(&mut prices)?, Some(100));
    let mut short = [5u32; 64];
    assert_eq!(rt; refusal_of(plan.tally::<Loads>(&mut short)), Some(7));
    Ok(())
}

#[test]
fn tables_too_short(rt: HostRuntime) -> Result<(), Fail> {
    let case = case_of(&FOUR_KINDS)?;
    let mut plan = Plan::blank(Band::new(10, 12)?);
    let mut forward = [7u8; 65];
    let mut backward = [9u8; 65];
    let mut short = [5u8; 64];
    let answer = plan.settle(&case, &mut short, &mut backward);
    assert_eq!(rt; refusal_of(answer), Some(7));
    let answer = plan.settle(&case, &mut forward, &mut short);
    assert_eq!(rt; refusal_of(answer), Some(7));
    assert!(rt; forward == [7; 65] && backward == [9; 65] && short == [5; 64]);
    assert_eq!(rt; plan.settle(&case, &mut forward, &mut backward)?, 7);
    let again = plan.settle(&case, &mut forward, &mut backward);
    assert_eq!(rt; refusal_of(again), Some(9));
    Ok(())
}

#[test]
fn large_kinds_stand(rt: HostRuntime) -> Result<(), Fail> {
    let case = case_of(&LARGE_KINDS)?;
    let mut plan = Plan::blank(Band::new(80, 82)?);
    let mut forward = [1u8; 415];
    let mut backward = [1u8; 415];
    assert_eq!(rt; plan.settle(&case, &mut forward, &mut backward)?, 9);
    for (kind, set) in [(1, 0b1011), (2, 0b11), (3, 0b11), (4, 0b11)] {
        assert_eq!(rt; plan.standing(kind)?, set, "kind {kind}");
    }
    Ok(())
}

#[test]
fn large_kinds_under_a_stride(rt: HostRuntime) -> Result<(), Fail> {
    let case = case_of(&LARGE_KINDS)?;
    let mut plan = Plan::blank(stride_over(Band::new(80, 82)?, 2, 0)?);
    let mut forward = [1u8; 415];
    let mut backward = [1u8; 415];
    plan.settle(&case, &mut forward, &mut backward)?;
    assert_eq!(rt; plan.standing(1)?, 0b11);
    let mut numbers = [0u32; 415];
    assert_eq!(rt; plan.tally::<Loads>(&mut numbers)?, 2);
    Ok(())
}

#[test]
fn no_load_fits(rt: HostRuntime) -> Result<(), Fail> {
    let case = one_kind(7, 0, 0b10)?;
    let mut plan = Plan::blank(Band::new(0, 0)?);
    let mut forward = [7u8; 3];
    let mut backward = [9u8; 3];
    let answer = plan.settle(&case, &mut forward, &mut backward);
    assert_eq!(rt; refusal_of(answer), Some(8));
    // the needed cells are cleared, and the third is not needed
    assert_eq!(rt; forward, [0, 0, 7]);
    assert_eq!(rt; backward, [0, 0, 9]);
    assert_eq!(rt; refusal_of(plan.standing(1)), Some(9));
    // it is still blank and may be settled with another case
    let other = one_kind(7, 0, 0b1)?;
    assert_eq!(rt; plan.settle(&other, &mut forward, &mut backward)?, 1);
    Ok(())
}

#[test]
fn a_size_of_zero(rt: HostRuntime) -> Result<(), Fail> {
    let case = one_kind(0, 0, u64::MAX)?;
    let mut plan = Plan::blank(Band::new(0, 0)?);
    let mut forward = [7u8; 2];
    let mut backward = [9u8; 2];
    assert_eq!(rt; plan.settle(&case, &mut forward, &mut backward)?, 64);
    let mut numbers = [0u32; 2];
    assert_eq!(rt; plan.tally::<Loads>(&mut numbers)?, 64);
    Ok(())
}

#[test]
fn a_goal_that_admits_nothing(rt: HostRuntime) -> Result<(), Fail> {
    let case = case_of(&FOUR_KINDS)?;
    let goal = stride_over(TotalList::new(&[1, 3, 5])?, 2, 0)?;
    let mut plan = Plan::blank(goal);
    let mut forward = [7u8; 30];
    let mut backward = [9u8; 30];
    let answer = plan.settle(&case, &mut forward, &mut backward);
    assert_eq!(rt; refusal_of(answer), Some(8));
    Ok(())
}

#[test]
fn a_case_without_kinds(rt: HostRuntime) -> Result<(), Fail> {
    let mut plan = Plan::blank(Band::new(0, 0)?);
    let answer = plan.settle(&Case::new(), &mut [], &mut []);
    assert_eq!(rt; refusal_of(answer), Some(6));
    assert_eq!(rt; refusal_of(plan.standing(1)), Some(9));
    Ok(())
}

#[test]
fn standing_sets_by_number(rt: HostRuntime) -> Result<(), Fail> {
    let case = case_of(&FOUR_KINDS)?;
    let mut plan = Plan::blank(Band::new(10, 12)?);
    let mut forward = [7u8; 65];
    let mut backward = [9u8; 65];
    plan.settle(&case, &mut forward, &mut backward)?;
    for number in [0, 5, u64::MAX] {
        assert_eq!(rt;
            refusal_of(plan.standing(number)),
            Some(10),
            "kind {number}"
        );
    }
    Ok(())
}

// The tally of a case of two kinds, of the prices given and one project each.
fn matrix_of(first: u64, second: u64) -> Result<u8, Refusal> {
    let case = case_of(&[first, second].map(|price| Sample {
        size: 1,
        price,
        allowed: 0b10,
    }))?;
    let mut plan = Plan::blank(Band::new(2, 2)?);
    let mut forward = [0u8; 9];
    let mut backward = [0u8; 9];
    let mut values = [0u8; 9];
    plan.settle(&case, &mut forward, &mut backward)?;
    plan.tally::<Matrices>(&mut values)
}

// A matrix for an odd price and then one for an even price is not the product the other way round.
#[test]
fn worths_are_chained_in_kind_order(rt: HostRuntime) -> Result<(), Fail> {
    assert_eq!(rt; matrix_of(1, 2)?, 1);
    assert_eq!(rt; matrix_of(2, 1)?, 3);
    Ok(())
}
