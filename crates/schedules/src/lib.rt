// The order in which schedules are visited, one after another.
#![tactic(auto)]

ghost use Rattle.schedules.specs.Walk.{WalksOn, WalkStarts, UpLast};

// From each schedule the walk goes to the next of the list of all, and stops after the last.
pub fn walk_stands()
    ensures starts { WalkStarts }
    ensures on { WalksOn }
    ensures back { UpLast }
{}
