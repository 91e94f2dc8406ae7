// Worked results: cases with their calls, and what comes of them by the definitions that the contracts cite.
#![tactic(auto)]

ghost use Rattle.results.specs.Rows.{Worked};

// What each row of the table expects is what the definitions compute.
pub fn worked_results_hold()
    ensures { Worked }
{}
