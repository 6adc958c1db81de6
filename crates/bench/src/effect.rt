// What a step does, worked out before anything is changed.
ghost use Rattle.std.specs.Prelude.{◌≡◌, List, [], ◌∷◌, MatchOption};

use protocol::Action;
use terms::{NodeNo, Variable};

#[derive(Clone, Copy)]
pub(crate) enum Effect {
    // the message of the action is the variable's value
    Receive {
        action: Action,
        variable: Variable,
    },
    Send(Action),
    // the body is the variable's value
    Open {
        variable: Variable,
        body: NodeNo,
    },
    // the halves are the values of two variables
    Split {
        left: Variable,
        left_half: NodeNo,
        right: Variable,
        right_half: NodeNo,
    },
    // two values are one
    Agree,
}

impl Effect {
    ghost use Rattle.terms.specs.declared.node.Node.{Node};
    ghost use Rattle.judging.specs.Places.{values_in};
    ghost use Rattle.bench.specs.Places.{KeptIn};
    ghost use Rattle.bench.specs.Effects.{EffectHeld, Numbered, bound, acted};

    // Gives the variables of the step their values.
    pub(crate) fn bind(self, values: &mut [Option<NodeNo>; 64])
        requires { Numbered self }
        ensures values { (ns : List Node) → EffectHeld ns self → values_in ns values.new ≡ bound ns (values_in ns values.old) self }
        ensures held { (ns : List Node) → EffectHeld ns self → KeptIn ns values.old → KeptIn ns values.new }
    {
        match self {
            Effect::Receive { action, variable } => {
                values[variable.0 as usize] = Some(action.node);
            }
            Effect::Open { variable, body } => {
                values[variable.0 as usize] = Some(body);
            }
            Effect::Split {
                left,
                left_half,
                right,
                right_half,
            } => {
                values[left.0 as usize] = Some(left_half);
                values[right.0 as usize] = Some(right_half);
            }
            Effect::Send(_) | Effect::Agree => {}
        }
    }

    // The action that the run gets.
    pub(crate) fn action(self) -> Option<Action>
        ensures { MatchOption result (acted self ≡ []) (λ a. acted self ≡ a ∷ []) }
    {
        match self {
            Effect::Receive { action, .. } | Effect::Send(action) => Some(action),
            Effect::Open { .. } | Effect::Split { .. } | Effect::Agree => None,
        }
    }
}
