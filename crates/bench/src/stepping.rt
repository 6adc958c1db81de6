// The next step of a strand: none, an input, or another.
ghost use Rattle.bench.specs.Tables.{sheet_in, protocol_in, nodes_of, situation};
ghost use Rattle.bench.specs.Steps.{NextStep, InputAt};
ghost use Rattle.bench.specs.Effects.{MoveAt};

use crate::effect::Effect;
use crate::tables::Tables;
use playing::StepFault;
use protocol::Step;
use terms::{Label, StrandNo, Variable};

impl Tables {
    fn next_step(&self, strand: StrandNo) -> Result<Step, StepFault>
        ensures { NextStep (sheet_in self.now) (situation self.now) strand.0 result }
    {
        match self.standings.get(strand.0 as usize) {
            Some(standing) => standing.step().ok_or(StepFault::Finished),
            None => Err(StepFault::NoStrand),
        }
    }

    // The label and the variable of a strand's next step, which has to be an input.
    #[tactic(auto, using(crate::proofs::Following::input_refused, crate::proofs::Following::other_next, crate::proofs::Following::input_next))]
    pub(crate) fn input(&self, strand: StrandNo) -> Result<(Label, Variable), StepFault>
        ensures { InputAt (protocol_in self.now) (situation self.now) strand.0 result }
    {
        match self.next_step(strand)? {
            Step::Input { label, variable } => Ok((label, variable)),
            Step::Output { .. } | Step::Open { .. } | Step::Split { .. } | Step::Same { .. } => {
                Err(StepFault::WrongCall)
            }
        }
    }

    // What a strand's next step does, which has to be no input.
    #[tactic(auto, using(crate::proofs::Following::move_refused))]
    pub(crate) fn movement(&self, strand: StrandNo) -> Result<Effect, StepFault>
        ensures { MoveAt (protocol_in self.now) (nodes_of self.now) (situation self.now) strand.0 result }
    {
        self.effect(self.next_step(strand)?)
    }
}
