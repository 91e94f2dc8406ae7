// The planner's program: reads a case file from standard input and prints its plan, or its one fault.
#![tactic(auto)]

use answering::write_answer;
use std::io::Read;

// One byte more than a file may have is enough to tell that it has too many.
const MOST_READ: u64 = 16385;

fn main(rt: HostRuntime) -> anyhow::Result<()> {
    let mut file = Vec::new(rt.alloc());
    rt.stdin().take(MOST_READ).read_to_end(&mut file)?;
    let mut text = String::new(rt.alloc());
    write_answer(file.as_slice(), &mut text)?;
    print!(rt; "{text}")?;
    Ok(())
}
