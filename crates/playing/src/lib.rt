// The rules of a bench over terms: what each of its calls answers, and what is then the case. Whatever plays by them, with
// whatever notebook, answers alike, its run is a run of the sheet, and how it is judged is decided.
#![tactic(auto)]

ghost use Rattle.playing.specs.Laws.{OneWrite, OneFeed, OneMove, PlaysRun, KeptPlay};
ghost use Rattle.playing.specs.Judging.{FitFinds, FitAdds, FitTells, JudgedByFitting, VerdictDecided};

mod calls;
mod faults;
mod verdict;

pub use calls::Call;
pub use faults::{StepFault, WriteFault};
pub use verdict::Verdict;

// Each call has one answer, and leaves one situation.
#[tactic(auto, using(crate::proofs::Once::one_write, crate::proofs::Once::one_feed, crate::proofs::Once::one_move))]
pub fn answers_are_one()
    ensures write { OneWrite }
    ensures feed { OneFeed }
    ensures moves { OneMove }
{}

// Whatever row of calls is made, what has been played is a run; and it is kept, where the search of the sheet answers holds.
pub fn plays_run()
    ensures run { PlaysRun }
    ensures kept { KeptPlay }
{}

// An open term is fitted to another in one way or in none, and so it is decided whether a run of closed messages is broken.
pub fn runs_are_judged()
    ensures finds { FitFinds }
    ensures adds { FitAdds }
    ensures tells { FitTells }
    ensures judged { JudgedByFitting }
    ensures decided { VerdictDecided }
{}
