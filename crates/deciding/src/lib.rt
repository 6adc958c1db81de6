// Whether a schedule can be broken at its last step is decided over open terms: each theorem is named by the contract of a small function.
#![tactic(auto)]

ghost use Rattle.deciding.specs.Rules.{Asked, Stays, ForcedSure, ReachedSure, NameFails, PairNeeds, OpenNeeds, MarkedNeeds, ShutBranches, KeyBranches, KeyFails, LookFails, MatchedBox, OtherBox, EarlierFails, MetSettles, SettlesOn, FirstWay};
ghost use Rattle.deciding.specs.Scan.{PlansGrounded, ScanStarts, ScanPasses};
ghost use Rattle.deciding.specs.Decide.{Decides, BreakDecided, AnalzTable, BreakingDecided, SomeMatcher, BreakingTold, InstancesEquate, InstancesExtend};
ghost use Rattle.deciding.specs.Found.{FreshInjective, SolvedBreaks};

// The rules by which the scan of a way goes on, fails or branches; each keeps every break.
pub fn needs_stand()
    ensures asked { Asked }
    ensures stays { Stays }
    ensures forced { ForcedSure }
    ensures reached { ReachedSure }
    ensures name { NameFails }
    ensures halves { PairNeeds }
    ensures opens { OpenNeeds }
    ensures marked { MarkedNeeds }
    ensures shut { ShutBranches }
    ensures key { KeyBranches }
    ensures shape { KeyFails }
    ensures look { LookFails }
    ensures matched { MatchedBox }
    ensures other { OtherBox }
    ensures earlier { EarlierFails }
    ensures met { MetSettles }
    ensures on { SettlesOn }
    ensures first { FirstWay }
{}

// A solved way has a break.
pub fn found_stands()
    ensures injective { FreshInjective }
    ensures breaks { SolvedBreaks }
{}

// The scan passes a way step by step.
pub fn scan_stands()
    ensures grounded { PlansGrounded }
    ensures starts { ScanStarts }
    ensures passes { ScanPasses }
{}

// The decision, with any matcher, and a matcher.
pub fn decision_stands()
    ensures recursion { Decides }
    ensures whole { BreakDecided }
    ensures table { AnalzTable }
    ensures breaking { BreakingDecided }
    ensures matcher { SomeMatcher }
    ensures told { BreakingTold }
    ensures equates { InstancesEquate }
    ensures extends { InstancesExtend }
{}
