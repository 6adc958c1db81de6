// Whether the next step of a strand can be taken, and what it does.
ghost use Rattle.std.specs.Prelude.{◌≡◌, ◌<◌, length, MatchOption};
ghost use Rattle.terms.specs.Terms.{Message};
ghost use Rattle.terms.specs.Nodes.{node as node_at, term};
ghost use Rattle.protocol.specs.Strands.{output, opens, splits, same, step_of};
ghost use Rattle.protocol.specs.Lawful.{OpenPattern, SplitPattern, StepLaw};
ghost use Rattle.runs.specs.Runs.{messages};
ghost use Rattle.bench.specs.Effects.{DoneBy, TakenBy, ValueAt};
ghost use Rattle.bench.specs.Tables.{sheet_in, nodes_of, situation};

use crate::effect::Effect;
use crate::patterns::{open_pattern, split_pattern};
use crate::shapes::{pair_at, seal_at};
use crate::tables::Tables;
use playing::StepFault;
use protocol::{Action, Direction, Step};
use terms::{Label, Node, NodeNo, Variable};

impl Tables {
    // The place of the value of a node of the sheet.
    #[tactic(auto, using(crate::proofs::Taken::value_at, judging::proofs::Reading::few_nodes))]
    fn value_of(&self, node: NodeNo) -> Option<NodeNo>
        requires { node.0 < length (sheet_in self.now).nodes }
        ensures { ValueAt (nodes_of self.now) (situation self.now).state.value (term (sheet_in self.now).nodes node.0) result }
    {
        self.placed[node.0 as usize]
    }

    // The place itself, where its term is a message.
    fn message(&self, node: NodeNo) -> Option<NodeNo>
        requires { node.0 < length (nodes_of self.now) }
        ensures { let m = Message (term (nodes_of self.now) node.0) in MatchOption result (¬ m) (λ p. (p ≡ node) × m) }
    {
        self.pages.is_message(node).then_some(node)
    }

    // An output: its value is a message.
    fn sending(&self, label: Label, node: NodeNo) -> Option<Effect>
        requires { node.0 < length (sheet_in self.now).nodes }
        ensures { let st = (situation self.now).state in DoneBy (nodes_of self.now) st.value (messages st.run) (output label.0 (term (sheet_in self.now).nodes node.0)) result }
    {
        let node = self.message(self.value_of(node)?)?;
        Some(Effect::Send(Action {
            direction: Direction::Output,
            label,
            node,
        }))
    }

    // An open: its subject's value is sealed under the key's value.
    fn opening(&self, subject: NodeNo, variable: Variable, key: NodeNo) -> Option<Effect>
        requires subject_held { subject.0 < length (sheet_in self.now).nodes }
        requires key_held { key.0 < length (sheet_in self.now).nodes }
        requires variable_held { variable.0 < 64 }
        ensures { let st = (situation self.now).state in let ss = (sheet_in self.now).nodes in DoneBy (nodes_of self.now) st.value (messages st.run) (opens (term ss subject.0) variable.0 (term ss key.0)) result }
    {
        let subject = self.value_of(subject)?;
        let key = self.value_of(key)?;
        let (body, lock) = seal_at(&self.pages, subject)?;
        if !self.pages.same(lock, key) {
            return None;
        }
        Some(Effect::Open { variable, body })
    }

    // A split: its subject's value is a pair.
    fn splitting(&self, subject: NodeNo, left: Variable, right: Variable) -> Option<Effect>
        requires subject_held { subject.0 < length (sheet_in self.now).nodes }
        requires left_held { left.0 < 64 }
        requires right_held { right.0 < 64 }
        ensures { let st = (situation self.now).state in DoneBy (nodes_of self.now) st.value (messages st.run) (splits (term (sheet_in self.now).nodes subject.0) left.0 right.0) result }
    {
        let subject = self.value_of(subject)?;
        let (left_half, right_half) = pair_at(&self.pages, subject)?;
        Some(Effect::Split {
            left,
            left_half,
            right,
            right_half,
        })
    }

    // A same: two values are one.
    #[tactic(auto, using(crate::proofs::Taken::same_other))]
    fn agreeing(&self, left: NodeNo, right: NodeNo) -> Option<Effect>
        requires left_held { left.0 < length (sheet_in self.now).nodes }
        requires right_held { right.0 < length (sheet_in self.now).nodes }
        ensures { let st = (situation self.now).state in let ss = (sheet_in self.now).nodes in DoneBy (nodes_of self.now) st.value (messages st.run) (same (term ss left.0) (term ss right.0)) result }
    {
        let left = self.value_of(left)?;
        let right = self.value_of(right)?;
        if !self.pages.same(left, right) {
            return None;
        }
        Some(Effect::Agree)
    }

    // What taking a step does that is no input.
    pub(crate) fn effect(&self, step: Step) -> Result<Effect, StepFault>
        requires { StepLaw (sheet_in self.now) step }
        ensures { let st = (situation self.now).state in TakenBy (nodes_of self.now) st.value (messages st.run) (step_of (sheet_in self.now).nodes step) result }
    {
        match step {
            Step::Input { .. } => Err(StepFault::WrongCall),
            Step::Output { label, node } => self.sending(label, node).ok_or(StepFault::Stuck),
            Step::Open { subject, pattern } => {
                let (variable, key) = open_pattern(&self.sheet, pattern).unwrap();
                self.opening(subject, variable, key).ok_or(StepFault::Stuck)
            }
            Step::Split { subject, pattern } => {
                let (left, right) = split_pattern(&self.sheet, pattern).unwrap();
                self.splitting(subject, left, right).ok_or(StepFault::Stuck)
            }
            Step::Same { left, right } => self.agreeing(left, right).ok_or(StepFault::Stuck),
        }
    }
}
