// How derivation is decided over a table of nodes: by the first place of each term and by marks on the parts of the
// listed terms. Only the theory stands here, apart from the code that computes the marks.
#![tactic(auto)]

ghost use Rattle.analysis.specs.Places.{FirstPlaces};
ghost use Rattle.analysis.specs.Parts.{Decided};

// Equal terms have one first place, and the marks of the parts decide what is derived.
pub fn analysis_stands()
    ensures places { FirstPlaces }
    ensures decided { Decided }
{}
