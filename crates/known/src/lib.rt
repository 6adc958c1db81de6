// The known cases: one table of sheets and terms, and one theorem for the whole of it.
#![tactic(auto)]

ghost use Rattle.known.specs.Known.{KnownCases};

// Every answer of the table is the right one, at every budget.
pub fn known_cases()
    ensures { KnownCases }
{}
