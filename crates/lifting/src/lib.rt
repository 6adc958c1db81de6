// What is derived under a valuation, seen in the open terms: each theorem is named by the contract of a small function.
#![tactic(auto)]

ghost use Rattle.lifting.specs.Same.{SameSound, SameComplete};
ghost use Rattle.lifting.specs.Lift.{Lifting, Lowering, LocalName, ShutSeal};
ghost use Rattle.lifting.specs.Bind.{WalkKeeps, WalkEnds, LiftingWalked};
ghost use Rattle.lifting.specs.Example.{MetByTwo, NineSecret};

// The test of terms.
pub fn same_stands()
    ensures sound { SameSound }
    ensures complete { SameComplete }
{}

// What is derived is what the open terms show.
pub fn lifting_stands()
    ensures up { Lifting }
    ensures down { Lowering }
    ensures local { LocalName }
    ensures shut { ShutSeal }
{}

// The same over bindings, whose terms are walked first.
pub fn walking_stands()
    ensures keeps { WalkKeeps }
    ensures ends { WalkEnds }
    ensures lifts { LiftingWalked }
{}

// The assumptions of lifting can be met.
pub fn lifting_is_met()
    ensures met { MetByTwo }
    ensures secret { NineSecret }
{}
