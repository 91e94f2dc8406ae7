// Whole histories: a settle, a list of calls, and a tally.
use entries::{Call, Cells, Entry};
use measures::loads::Loads;
use model::goal::band::Band;
use model::refusal::Refusal;
use plan::lived::Lived;
use plan::plan::Plan;
use samples::case_of;
use samples::worked::FOUR_KINDS;
use std::test::Fail;

// More cells than there are.
const ALL_CELLS: Cells = Cells {
    forward: usize::MAX,
    backward: usize::MAX,
};

// Rules out a count, with all cells of both tables.
fn rule_out(kind: u64, count: u64) -> Entry {
    Entry::new(Call::RuleOut {
        kind,
        count,
        cells: ALL_CELLS,
    })
}

// Withdraws a branch, with all cells of both tables.
fn withdraw(number: u64) -> Entry {
    Entry::new(Call::Withdraw {
        number,
        cells: ALL_CELLS,
    })
}

// Nine calls, of which the last three leave one branch open.
fn nine_calls() -> [Entry; 9] {
    [
        Entry::new(Call::Branch),
        rule_out(2, 1),
        withdraw(1),
        Entry::new(Call::Branch),
        rule_out(4, 1),
        Entry::new(Call::Keep { number: 2 }),
        Entry::new(Call::Keep { number: 1 }),
        Entry::new(Call::Branch),
        rule_out(1, 0),
    ]
}

// What they answer.
const ANSWERS: [Result<u32, Refusal>; 9] = [
    Ok(1),
    Ok(3),
    Ok(3),
    Ok(1),
    Err(Refusal::NoLoad),
    Err(Refusal::NotLatest),
    Ok(0),
    Ok(1),
    Ok(1),
];

#[test]
fn a_history_of_the_small_case(rt: HostRuntime) -> Result<(), Fail> {
    let mut forward = [7u8; 65];
    let mut backward = [9u8; 65];
    let mut numbers = [0u32; 65];
    let mut entries = nine_calls();
    let mut plan = Plan::blank(Band::new(10, 12)?);
    let lived = plan.history::<Loads>(
        &case_of(&FOUR_KINDS)?,
        &mut entries,
        &mut numbers,
        &mut forward,
        &mut backward,
    )?;
    let Lived {
        counts,
        tally,
        branches,
    } = lived;
    assert_eq!(rt; counts, 7);
    assert_eq!(rt; tally, Ok(2));
    let entries_said = entries.iter().map(|entry| entry.answer());
    assert!(rt; entries_said.eq(ANSWERS.iter().map(|answer| Some(*answer))));
    // the open branch is kept, and there is no other
    let Some((branch, others)) = branches.latest() else {
        panic!(rt; "no branch is open");
    };
    match plan.keep(branch) {
        Ok(open) => assert_eq!(rt; open, 0),
        Err(_) => panic!(rt; "the branch was not kept"),
    }
    match others.latest() {
        None => Ok(()),
        Some(_) => panic!(rt; "a second branch is open"),
    }
}
