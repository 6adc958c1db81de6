// Why a replay is turned down: a fault of the file inside one of the run file, inside one of the replay.
ghost use Rattle.std.specs.Prelude.{◌≡◌};
ghost use Rattle.replays.specs.declared.faults.RunFault.TheVariants.{File};
ghost use Rattle.replays.specs.declared.faults.ReplayFault.TheVariants.{Run};
ghost use Rattle.replays.specs.declared.faults.BenchFault.TheVariants.{Write, Step};

use playing::{StepFault, WriteFault};
use records::FileFault;

// what is wrong with a run file, and at which record
#[derive(Clone, Copy, Debug, PartialEq, Eq)]
pub enum RunFault {
    File(FileFault),
    // a record of another kind, out of order or of another length
    Kind(usize),
    // a node or a step too many
    Limit(usize),
}

impl From<FileFault> for RunFault {
    ghost from_gives = { λ f r. r ≡ File f };

    fn from(fault: FileFault) -> RunFault {
        RunFault::File(fault)
    }
}

// a call that the bench turns down
#[derive(Clone, Copy, Debug, PartialEq, Eq)]
pub enum BenchFault {
    Write(WriteFault),
    Step(StepFault),
}

impl From<WriteFault> for BenchFault {
    ghost from_gives = { λ f r. r ≡ Write f };

    fn from(fault: WriteFault) -> BenchFault {
        BenchFault::Write(fault)
    }
}

impl From<StepFault> for BenchFault {
    ghost from_gives = { λ f r. r ≡ Step f };

    fn from(fault: StepFault) -> BenchFault {
        BenchFault::Step(fault)
    }
}

#[derive(Clone, Copy, Debug, PartialEq, Eq)]
pub enum ReplayFault {
    Run(RunFault),
    // the record whose call is turned down
    Bench { fault: BenchFault, record: usize },
}

impl From<RunFault> for ReplayFault {
    ghost from_gives = { λ f r. r ≡ Run f };

    fn from(fault: RunFault) -> ReplayFault {
        ReplayFault::Run(fault)
    }
}
