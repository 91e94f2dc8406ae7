// Ruling out counts.
use crate::common::refusal_of;
use measures::loads::Loads;
use measures::prices::Lowest;
use model::goal::band::Band;
use plan::plan::Plan;
use samples::case_of;
use samples::worked::{FOUR_KINDS, LARGE_KINDS};
use std::test::Fail;

// The cells of the small case that lie on the way of a load: of the one load that is left without count 1 of kind 2.
const ON_THE_WAY: [usize; 5] = [0, 15, 28, 45, 63];

#[test]
fn rule_outs_of_the_small_case(rt: HostRuntime) -> Result<(), Fail> {
    let mut forward = [7u8; 66];
    let mut backward = [9u8; 66];
    let mut plan = Plan::blank(Band::new(10, 12)?);
    plan.settle(&case_of(&FOUR_KINDS)?, &mut forward, &mut backward)?;
    assert_eq!(rt; plan.rule_out(2, 1, &mut forward, &mut backward)?, 3);
    for (kind, set) in [(1, 0b10), (2, 0b1), (3, 0b10), (4, 0b10)] {
        assert_eq!(rt; plan.standing(kind)?, set, "kind {kind}");
    }
    let mut numbers = [0u32; 65];
    let mut prices = [None; 65];
    assert_eq!(rt; plan.tally::<Loads>(&mut numbers)?, 1);
    assert_eq!(rt; plan.tally::<Lowest>(&mut prices)?, Some(95));
    // past the 65 needed cells nothing is touched
    assert!(rt; forward[65] == 7 && backward[65] == 9);
    Ok(())
}

// Where every load that is left has the count, the tables then hold the marks of the plan all the same.
#[test]
fn the_last_load_is_not_ruled_out(rt: HostRuntime) -> Result<(), Fail> {
    let mut forward = [7u8; 65];
    let mut backward = [9u8; 65];
    let mut plan = Plan::blank(Band::new(10, 12)?);
    plan.settle(&case_of(&FOUR_KINDS)?, &mut forward, &mut backward)?;
    plan.rule_out(2, 1, &mut forward, &mut backward)?;
    let mut ahead = [1u8; 66];
    let mut back = [1u8; 66];
    let answer = plan.rule_out(4, 1, &mut ahead, &mut back);
    assert_eq!(rt; refusal_of(answer), Some(8));
    assert!(rt; ahead.starts_with(&forward) && back.starts_with(&backward));
    assert!(rt; ahead[65] == 1 && back[65] == 1);
    for (cell, (ahead, back)) in forward.iter().zip(&backward).enumerate() {
        assert_eq!(rt;
            *ahead == 1 && *back == 1,
            ON_THE_WAY.contains(&cell),
            "cell {cell}"
        );
    }
    Ok(())
}

#[test]
fn rule_outs_of_the_large_case(rt: HostRuntime) -> Result<(), Fail> {
    let mut forward = [7u8; 415];
    let mut backward = [9u8; 415];
    let mut plan = Plan::blank(Band::new(80, 82)?);
    plan.settle(&case_of(&LARGE_KINDS)?, &mut forward, &mut backward)?;
    assert_eq!(rt; plan.rule_out(1, 3, &mut forward, &mut backward)?, 1);
    assert_eq!(rt; plan.rule_out(2, 1, &mut forward, &mut backward)?, 4);
    for (kind, set) in [(1, 0b10), (2, 0b1), (3, 0b1), (4, 0b10)] {
        assert_eq!(rt; plan.standing(kind)?, set, "kind {kind}");
    }
    Ok(())
}

#[test]
fn tables_too_short_for_a_rule_out(rt: HostRuntime) -> Result<(), Fail> {
    let mut forward = [7u8; 65];
    let mut backward = [9u8; 65];
    let mut short = [5u8; 64];
    let mut plan = Plan::blank(Band::new(10, 12)?);
    let answer = plan.rule_out(0, 99, &mut short, &mut backward);
    assert_eq!(rt; refusal_of(answer), Some(9));
    plan.settle(&case_of(&FOUR_KINDS)?, &mut forward, &mut backward)?;
    let mut ahead = [3u8; 65];
    let mut back = [3u8; 65];
    let answer = plan.rule_out(0, 1, &mut short, &mut back);
    assert_eq!(rt; refusal_of(answer), Some(7));
    let answer = plan.rule_out(0, 1, &mut ahead, &mut short);
    assert_eq!(rt; refusal_of(answer), Some(7));
    // neither table is touched, nor the plan
    assert!(rt; ahead == [3; 65] && back == [3; 65]);
    assert!(rt; short == [5; 64]);
    assert_eq!(rt; plan.standing(4)?, 0b10);
    Ok(())
}

#[test]
fn refused_rule_outs(rt: HostRuntime) -> Result<(), Fail> {
    let mut forward = [7u8; 65];
    let mut backward = [9u8; 65];
    let mut plan = Plan::blank(Band::new(10, 12)?);
    plan.settle(&case_of(&FOUR_KINDS)?, &mut forward, &mut backward)?;
    let mut ahead = [3u8; 65];
    let mut back = [3u8; 65];
    for (kind, count, number) in [
        (0, 1, 10),
        (5, 1, 10),
        (1, 64, 10),
        (u64::MAX, u64::MAX, 10),
        (4, 0, 11),
        (4, 63, 11),
    ] {
        let answer = plan.rule_out(kind, count, &mut ahead, &mut back);
        assert_eq!(rt; refusal_of(answer), Some(number), "{kind} {count}");
    }
    assert!(rt; ahead == [3; 65] && back == [3; 65]);
    assert_eq!(rt; plan.standing(4)?, 0b10);
    Ok(())
}
