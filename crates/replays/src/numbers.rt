// The number of a fault, its record and the layer that found it.
ghost use Rattle.std.specs.Prelude.{◌≡◌};
ghost use Rattle.replays.specs.Faults.{layer_of, number_of, number_of_bench, place_of};

use crate::faults::{BenchFault, ReplayFault, RunFault};
use records::FileFault;

#[derive(Clone, Copy, Debug, PartialEq, Eq)]
pub enum Layer {
    File,
    Run,
    Bench,
}

impl BenchFault {
    fn number(self) -> u16
        ensures { result ≡ number_of_bench self }
    {
        match self {
            BenchFault::Write(fault) => fault.number(),
            BenchFault::Step(fault) => fault.number(),
        }
    }
}

impl ReplayFault {
    pub fn layer(self) -> Layer
        ensures { result ≡ layer_of self }
    {
        match self {
            ReplayFault::Run(RunFault::File(_)) => Layer::File,
            ReplayFault::Run(RunFault::Kind(_) | RunFault::Limit(_)) => Layer::Run,
            ReplayFault::Bench { .. } => Layer::Bench,
        }
    }

    pub fn number(self) -> u16
        ensures { result ≡ number_of self }
    {
        match self {
            ReplayFault::Run(RunFault::File(_)) => 20,
            ReplayFault::Run(RunFault::Kind(_)) => 21,
            ReplayFault::Run(RunFault::Limit(_)) => 22,
            ReplayFault::Bench { fault, .. } => fault.number(),
        }
    }

    // The number of the record, counted from 0.
    pub fn record(self) -> usize
        ensures { result ≡ place_of self }
    {
        match self {
            ReplayFault::Run(
                RunFault::File(FileFault::Cut(record))
                | RunFault::Kind(record)
                | RunFault::Limit(record),
            ) => record,
            ReplayFault::Bench { record, .. } => record,
        }
    }
}
