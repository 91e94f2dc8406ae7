// The meaning of plans: definitions in specs/, theorems proved for them.
#![tactic(auto)]

ghost use Rattle.meaning.specs.Claims.{StandingLoads, CallShows, HistoryStands, HistoryAgrees, RunsTold, SetsSound};
ghost use Rattle.meaning.specs.Finding.{RunsRight};
ghost use Rattle.meaning.specs.Paths.{MarksAndLoads};
ghost use Rattle.meaning.specs.Strike.{StrikeTells};

// The fitting loads of the counts that stand are the register's loads.
pub fn standing_loads()
    ensures { StandingLoads }
{}

// A call takes a state that shows the register to one that shows the register after the call, with the same answer.
pub fn call_shows()
    ensures { CallShows }
{}

// After any calls from a settle on, the answers and the counts that stand are what the register says.
pub fn history_stands()
    ensures stands { HistoryStands }
    ensures agrees { HistoryAgrees }
    ensures told { RunsTold }
{}

// The standing sets are never empty, and each lies within the sets that every open branch noted.
pub fn sets_sound()
    ensures { SetsSound }
{}

// Marks and loads correspond: what a forward and a backward mark mean; a load fits exactly when its way through both tables is
// marked; a count is used by some fitting load exactly when a forward mark meets a backward mark across it.
pub fn marks_and_loads()
    ensures { MarksAndLoads }
{}

// The fitting loads without a count are the fitting loads of the sets with that count struck.
pub fn strike_tells()
    ensures { StrikeTells }
{}

// Starting with the first load and going on with the next from each answer gives every fitting load, each once and in order, and then none.
pub fn runs_right()
    ensures { RunsRight }
{}
