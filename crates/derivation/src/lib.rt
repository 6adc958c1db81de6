// What the environment derives from the terms that it has seen, and the laws of that.
#![tactic(auto)]

ghost use Rattle.derivation.specs.Derive.{Monotone, Cut, StaysClosed, StaysMessage, SealedSecret};

// The laws of derivation, and the smallest secret.
pub fn derivation_stands()
    ensures grows { Monotone }
    ensures cuts { Cut }
    ensures closed { StaysClosed }
    ensures messages { StaysMessage }
    ensures secret { SealedSecret }
{}
