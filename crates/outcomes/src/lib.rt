// What the reading of a case file comes to, in the words of cases, plans and tables: definitions and a theorem alone.
#![tactic(auto)]

ghost use Rattle.outcomes.specs.Outcomes.{OutcomesTold};

// A run over the bytes of a file, by its definition, has one of these outcomes.
pub fn outcomes_told()
    ensures { OutcomesTold }
{}
