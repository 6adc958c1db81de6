// Where a strand stands.
ghost use Rattle.std.specs.Prelude.{◌≡◌, ◌+◌, ◌<◌, length, slice_index_or};
ghost use Rattle.protocol.specs.Strands.{steps_of};
ghost use Rattle.runs.specs.Runs.{onward};
ghost use Rattle.bench.specs.Places.{next_in, strands_in};
ghost use Rattle.bench.specs.Steps.{StepAt};

use protocol::{Step, Strand};
use terms::StrandNo;

#[derive(Clone, Copy)]
pub(crate) struct Standing {
    pub(crate) strand: Strand,
    // the number of its next step
    pub(crate) next: usize,
}

impl Standing {
    // The next step, where there is one.
    #[tactic(auto, using(crate::proofs::Standings::step_at))]
    pub(crate) fn step(&self) -> Option<Step>
        ensures { StepAt (steps_of self.now.strand) self.now.next result }
    {
        self.strand.steps().get(self.next).copied()
    }

    fn advance(&mut self)
        requires { self.old.next < 65535 }
        ensures strand { self.new.strand ≡ self.old.strand }
        ensures next { self.new.next ≡ self.old.next + 1 }
    {
        self.next += 1;
    }
}

// One strand goes one step further.
pub(crate) fn advance(standings: &mut Vec<Standing>, strand: StrandNo)
    requires held { strand.0 < length standings.old.items }
    requires short { next_in standings.old.items strand.0 < 65535 }
    ensures strands { strands_in standings.new.items ≡ strands_in standings.old.items }
    ensures next { next_in standings.new.items ≡ onward (next_in standings.old.items) strand.0 }
{
    standings[strand.0 as usize].advance();
}
