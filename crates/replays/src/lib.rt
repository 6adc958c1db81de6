// Run files: what a replay answers to one, whatever notebook is asked on the way, and the reader of them.
#![tactic(auto)]

ghost use Rattle.replays.specs.Laws.{OneReplay, ReplayRuns, BreakShown, KeptReplay};

mod decode;
mod faults;
mod line;
mod numbers;
mod reader;

pub use faults::{BenchFault, ReplayFault, RunFault};
pub use line::{Line, NoLine};
pub use numbers::Layer;
pub use reader::RunReader;

// A run file has one answer.
#[tactic(auto, using(crate::proofs::Once::one_replay))]
pub fn replay_is_one()
    ensures { OneReplay }
{}

// What is judged is a run of the sheet: a file that is judged broken shows a break, and where the search answers holds there is
// none.
pub fn replays_run()
    ensures run { ReplayRuns }
    ensures broken { BreakShown }
    ensures kept { KeptReplay }
{}
