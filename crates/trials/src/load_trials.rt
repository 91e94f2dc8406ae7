// First load and next load.
use crate::common::refusal_of;
use model::case::Case;
use model::goal::band::Band;
use model::refusal::Refusal;
use plan::plan::Plan;
use samples::case_of;
use samples::worked::{FOUR_KINDS, LARGE_KINDS};
use std::test::Fail;

// Asks for the load after the given bytes in a case of four kinds under a band: the refusal's number, if any, and what the bytes then are.
fn after(
    case: &Case,
    low: u64,
    high: u64,
    given: [u8; 4],
) -> Result<(Option<u8>, [u8; 4]), Refusal> {
    let mut plan = Plan::blank(Band::new(low, high)?);
    let mut forward = [7u8; 415];
    let mut backward = [9u8; 415];
    plan.settle(case, &mut forward, &mut backward)?;
    let mut load = given;
    let refused = refusal_of(plan.next_load(&mut load, &mut forward, &mut backward));
    Ok((refused, load))
}

#[test]
fn first_loads(rt: HostRuntime) -> Result<(), Fail> {
    let mut forward = [7u8; 415];
    let mut backward = [9u8; 415];
    let mut load = [255u8; 4];
    let mut small = Plan::blank(Band::new(10, 12)?);
    small.settle(&case_of(&FOUR_KINDS)?, &mut forward, &mut backward)?;
    small.first_load(&mut load, &mut forward, &mut backward)?;
    assert_eq!(rt; load, [0, 1, 1, 1]);
    let mut large = Plan::blank(Band::new(80, 82)?);
    large.settle(&case_of(&LARGE_KINDS)?, &mut forward, &mut backward)?;
    large.first_load(&mut load, &mut forward, &mut backward)?;
    assert_eq!(rt; load, [0, 1, 1, 0]);
    Ok(())
}

#[test]
fn next_loads_of_the_small_case(rt: HostRuntime) -> Result<(), Fail> {
    let case = case_of(&FOUR_KINDS)?;
    for (given, told) in [
        ([0, 1, 1, 1], (None, [1, 0, 1, 1])),
        ([1, 0, 1, 1], (None, [1, 1, 0, 1])),
        // the last: refusal 15, and the bytes stay
        ([1, 1, 0, 1], (Some(15), [1, 1, 0, 1])),
    ] {
        assert_eq!(rt; after(&case, 10, 12, given)?, told, "after {given:?}");
    }
    Ok(())
}

#[test]
fn next_loads_of_the_large_case(rt: HostRuntime) -> Result<(), Fail> {
    let case = case_of(&LARGE_KINDS)?;
    for (given, told) in [
        ([0, 1, 1, 0], (None, [1, 0, 0, 1])),
        ([1, 0, 0, 1], (None, [3, 0, 0, 0])),
        ([3, 0, 0, 0], (Some(15), [3, 0, 0, 0])),
    ] {
        assert_eq!(rt; after(&case, 80, 82, given)?, told, "after {given:?}");
    }
    Ok(())
}

// Bytes that are no load have a place in the order all the same.
#[test]
fn next_after_bytes_that_are_no_load(rt: HostRuntime) -> Result<(), Fail> {
    let small = case_of(&FOUR_KINDS)?;
    for (given, told) in [
        ([0, 0, 0, 0], (None, [0, 1, 1, 1])),
        ([255, 255, 255, 255], (Some(15), [255, 255, 255, 255])),
        ([0, 255, 255, 255], (None, [1, 0, 1, 1])),
        ([0, 1, 1, 64], (None, [1, 0, 1, 1])),
        ([0, 1, 0, 200], (None, [0, 1, 1, 1])),
    ] {
        assert_eq!(rt; after(&small, 10, 12, given)?, told, "after {given:?}");
    }
    // the count 2 of the first kind does not stand, and 3 does
    let large = case_of(&LARGE_KINDS)?;
    for given in [[2, 0, 0, 0], [2, 255, 255, 255], [1, 63, 63, 63]] {
        assert_eq!(rt; after(&large, 80, 82, given)?, (None, [3, 0, 0, 0]));
    }
    Ok(())
}

// A slice that has not a byte for each kind is refused, and nothing is written.
#[test]
fn slices_of_another_length(rt: HostRuntime) -> Result<(), Fail> {
    let mut forward = [7u8; 65];
    let mut backward = [9u8; 65];
    let mut plan = Plan::blank(Band::new(10, 12)?);
    plan.settle(&case_of(&FOUR_KINDS)?, &mut forward, &mut backward)?;
    let mut ahead = [7u8; 65];
    let mut back = [9u8; 65];
    for len in [3, 5] {
        let mut bytes = [5u8; 5];
        let load = &mut bytes[..len];
        assert_eq!(rt;
            refusal_of(plan.first_load(load, &mut ahead, &mut back)),
            Some(14)
        );
        assert_eq!(rt;
            refusal_of(plan.next_load(load, &mut ahead, &mut back)),
            Some(14)
        );
        assert_eq!(rt; bytes, [5; 5]);
    }
    assert!(rt; ahead == [7; 65] && back == [9; 65]);
    Ok(())
}

// That the plan is settled is seen first, and a short table before the slice.
#[test]
fn refusals_before_the_length(rt: HostRuntime) -> Result<(), Fail> {
    let mut forward = [7u8; 65];
    let mut backward = [9u8; 65];
    let mut plan = Plan::blank(Band::new(10, 12)?);
    let mut load = [5u8; 5];
    let answer = plan.first_load(&mut load[..4], &mut forward, &mut backward);
    assert_eq!(rt; refusal_of(answer), Some(9));
    plan.settle(&case_of(&FOUR_KINDS)?, &mut forward, &mut backward)?;
    let mut short = [1u8; 64];
    let answer = plan.next_load(&mut load, &mut short, &mut backward);
    assert_eq!(rt; refusal_of(answer), Some(7));
    let answer = plan.next_load(&mut load, &mut forward, &mut short);
    assert_eq!(rt; refusal_of(answer), Some(7));
    Ok(())
}

// The tables may hold anything before the call, and hold the plan's marks after it, also where no load comes.
#[test]
fn tables_are_marked_again(rt: HostRuntime) -> Result<(), Fail> {
    let mut forward = [0u8; 65];
    let mut backward = [0u8; 65];
    let mut plan = Plan::blank(Band::new(10, 12)?);
    plan.settle(&case_of(&FOUR_KINDS)?, &mut forward, &mut backward)?;
    let mut ahead = [1u8; 66];
    let mut back = [1u8; 66];
    let mut load = [1u8, 1, 0, 1];
    let answer = plan.next_load(&mut load, &mut ahead, &mut back);
    assert_eq!(rt; refusal_of(answer), Some(15));
    assert_eq!(rt; load, [1, 1, 0, 1]);
    assert!(rt; ahead.starts_with(&forward) && back.starts_with(&backward));
    assert!(rt; ahead[65] == 1 && back[65] == 1);
    Ok(())
}
