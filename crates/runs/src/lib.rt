// Runs of a protocol, its schedules and the replies of a search: each theorem is named by the contract of a small function.
#![tactic(auto)]

ghost use Rattle.runs.specs.Bridge.{RunSolves, SolutionRuns, BeginningRuns, BeginningFeasible, BreakingFeasible, BreaksLast};
ghost use Rattle.runs.specs.Apart.{StrandsApart, FeasibleCounts};
ghost use Rattle.runs.specs.Replies.{OneListing, OneReply, OneWord, SomeReply};
ghost use Rattle.runs.specs.Words.{WordsListed};
ghost use Rattle.runs.specs.Release.{RunsOn, StandsAt, KeptRelease, OneValuation, OrderTold};
ghost use Rattle.runs.specs.Last.{BreaksAtLast, NothingBreaksNothing};
ghost use Rattle.runs.specs.Tries.{TriesSuffice};
ghost use Rattle.runs.specs.Told.{BrokenTold, FedTold, SpentTold};
ghost use Rattle.runs.specs.Needed.{ApartNeeded};
ghost use Rattle.runs.specs.Tables.{TablesLawful, TablesSized, DescribedLawful};
ghost use Rattle.runs.specs.Law.{LawDecided, LawTold};

// A run of a schedule is a simultaneous solution of its steps.
pub fn bridge_stands()
    ensures solves { RunSolves }
    ensures runs { SolutionRuns }
{}

// What a beginning of a schedule keeps.
pub fn beginning_stands()
    ensures runs { BeginningRuns }
    ensures feasible { BeginningFeasible }
    ensures breaking { BreakingFeasible }
    ensures last { BreaksLast }
{}

// Feasible is a matter of each strand alone, and then of counting.
pub fn apart_stands()
    ensures apart { StrandsApart }
    ensures counts { FeasibleCounts }
{}

// A search has one reply at each budget, and one word at all.
pub fn reply_stands()
    ensures listing { OneListing }
    ensures reply { OneReply }
    ensures word { OneWord }
    ensures some { SomeReply }
{}

// The feasible schedules can be listed by counting.
pub fn words_stand()
    ensures { WordsListed }
{}

// What benches and searches build on.
pub fn release_stands()
    ensures on { RunsOn }
    ensures at { StandsAt }
    ensures release { KeptRelease }
    ensures one { OneValuation }
    ensures order { OrderTold }
{}

// A break shows at the last step of the first schedule that has one.
pub fn last_stands()
    ensures last { BreaksAtLast }
    ensures nothing { NothingBreaksNothing }
{}

// So each visited schedule is tried at its last step only.
pub fn tries_stand()
    ensures { TriesSuffice }
{}

// The definitions say what their wording by places says.
pub fn told_stands()
    ensures broken { BrokenTold }
    ensures fed { FedTold }
    ensures spent { SpentTold }
{}

// A split has to bind two variables.
pub fn needed_stands()
    ensures { ApartNeeded }
{}

// The tables of a lawful sheet make a lawful protocol, with variables among the first 64.
pub fn tables_are_lawful()
    ensures lawful { TablesLawful }
    ensures sized { TablesSized }
    ensures described { DescribedLawful }
{}

// Whether tables are lawful is decided, so a sheet's law can be taken out of its type.
pub fn law_is_decided()
    ensures decided { LawDecided }
    ensures told { LawTold }
{}
