// A program that uses branches as they are meant to be used: each is given back, by keep or by withdraw, and then no more. The edits in
// misuse/ let one go, and give one back twice; the compiler refuses both.
#![tactic(auto)]

ghost use Rattle.std.specs.Prelude.{◌≡◌, ◌+◌, ◌≤◌};
ghost use Rattle.meaning.specs.Life.{open_in};
ghost use Rattle.plan.specs.Seen.{life};
ghost use Rattle.branch_use.specs.Opened.{IsOpened};

use model::goal::Goal;
use model::goal::band::Band;
use model::refusal::{HandedBack, Refusal};
use plan::branch::Branch;
use plan::plan::Plan;
use samples::case_of;
use samples::worked::FOUR_KINDS;
use std::io;

// Opens a branch, which is then the latest.
fn open<G: Goal + Drop>(plan: &mut Plan<G>) -> Result<Branch, Refusal>
    ensures { IsOpened (open_in (life G.Goal.means plan.old)) (open_in (life G.Goal.means plan.new)) result }
{
    plan.branch()
}

// Keeps the latest branch. This is never refused, so nothing is left to do where it would be.
fn keep_latest<G: Goal + Drop>(plan: &mut Plan<G>, branch: Branch) -> u32
    requires some { 1 ≤ branch.number }
    requires latest { open_in (life G.Goal.means plan.old) ≡ branch.number }
    ensures answer { result + 1 ≡ branch.number }
    ensures left { open_in (life G.Goal.means plan.new) ≡ result }
{
    match plan.keep(branch) {
        Ok(open) => open,
        Err(_) => unreachable!(),
    }
}

// Withdraws the latest branch; where the tables are too short for that, it is still owed, and is kept.
fn withdraw_latest<G: Goal + Drop>(
    plan: &mut Plan<G>,
    branch: Branch,
    forward: &mut [u8],
    backward: &mut [u8],
) -> Result<u32, Refusal>
    requires some { 1 ≤ branch.number }
    requires latest { open_in (life G.Goal.means plan.old) ≡ branch.number }
{
    match plan.withdraw(branch, forward, backward) {
        Ok(more) => Ok(more),
        Err(back) => {
            let refusal = back.refusal();
            keep_latest(plan, back.given());
            Err(refusal)
        }
    }
}

// Opens a branch and takes it back.
fn open_and_withdraw(
    plan: &mut Plan<Band>,
    forward: &mut [u8],
    backward: &mut [u8],
) -> Result<u32, Refusal> {
    let branch = open(plan)?;
    withdraw_latest(plan, branch, forward, backward)
}

// Opens a branch and keeps it; then opens a second and keeps that.
fn open_two(plan: &mut Plan<Band>) -> Result<u32, Refusal> {
    let first = open(plan)?;
    let left = keep_latest(plan, first);
    let second = open(plan)?;
    let then_left = keep_latest(plan, second);
    Ok(left.max(then_left))
}

// Gives back a branch although a later one is open: that is refused, nothing changes, and the branch is handed back with the refusal.
fn keep_not_latest<G: Goal + Drop>(plan: &mut Plan<G>, branch: Branch) -> HandedBack<Branch>
    requires { open_in (life G.Goal.means plan.old) ≡ branch.number + 1 }
    ensures back { result.given ≡ branch }
    ensures left { open_in (life G.Goal.means plan.new) ≡ open_in (life G.Goal.means plan.old) }
{
    match plan.keep(branch) {
        Ok(_) => unreachable!(),
        Err(back) => back,
    }
}

// Opens two branches and gives back the older first: that is refused, and hands the older back, which can be kept once the later is. Answers
// the number of the refusal, and how many branches are open in the end.
fn keep_older_first<G: Goal + Drop>(plan: &mut Plan<G>) -> Result<(u8, u32), Refusal> {
    let older = open(plan)?;
    let later = match open(plan) {
        Ok(branch) => branch,
        Err(refusal) => {
            keep_latest(plan, older);
            return Err(refusal);
        }
    };
    let back = keep_not_latest(plan, older);
    let number = back.refusal().number();
    keep_latest(plan, later);
    Ok((number, keep_latest(plan, back.given())))
}

// What came of the branches.
struct Used {
    // how many counts stand again after a withdraw
    again: u32,
    // how many branches are left open by two keeps
    left: u32,
    // the number of the refusal where the older of two is given back first
    refused: u8,
    // how many branches are open in the end
    open: u32,
}

// Settles a plan and uses branches.
fn use_branches() -> Result<Used, Refusal> {
    let mut forward = [0u8; 65];
    let mut backward = [0u8; 65];
    let mut plan = Plan::blank(Band::new(10, 12)?);
    plan.settle(&case_of(&FOUR_KINDS)?, &mut forward, &mut backward)?;
    let again = open_and_withdraw(&mut plan, &mut forward, &mut backward)?;
    let left = open_two(&mut plan)?;
    let (refused, open) = keep_older_first(&mut plan)?;
    Ok(Used {
        again,
        left,
        refused,
        open,
    })
}

fn main(rt: HostRuntime) -> io::Result<()> {
    match use_branches() {
        Ok(
            Used {
                again,
                left,
                refused,
                open,
            },
        ) => println!(rt;
            "counts again {again}, branches left {left}, the older one refused {refused}, then left {open}"
        ),
        Err(refusal) => {
            let number = refusal.number();
            println!(rt; "refused {number}")
        }
    }
}
