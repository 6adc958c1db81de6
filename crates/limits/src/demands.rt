// What is asked of the values of variables, so that actions are messages.
ghost use Rattle.std.specs.Prelude.{◌≡◌, ◌<◌, length, ℕ, MatchOption};
ghost use Rattle.terms.specs.Nodes.{term};
ghost use Rattle.terms.specs.Tables.{nodes_in};
ghost use Rattle.terms.specs.Terms.{Atom, var};
ghost use Rattle.limits.specs.Demands.{AsksMessage, AsksAtom, WithMessage, WithAtom};

use crate::keys::KeyedNodes;
use terms::{NodeNo, VarSet, Variable};

#[derive(Clone, Copy, Debug, PartialEq, Eq)]
pub struct Demands {
    // whose values have to be messages
    pub(crate) messages: VarSet,
    // whose values have to be names, or variables with no value yet
    pub(crate) atoms: VarSet,
}

impl Demands {
    pub(crate) fn none() -> Demands
        ensures messages { (x : ℕ) → AsksMessage result x → ⊥ }
        ensures atoms { (x : ℕ) → AsksAtom result x → ⊥ }
    {
        Demands {
            messages: VarSet::empty(),
            atoms: VarSet::empty(),
        }
    }

    // And that the value of a variable be a message.
    pub(crate) fn with_variable(self, x: Variable) -> Demands
        requires { x.0 < 64 }
        ensures { WithMessage self (var x.0) result }
    {
        Demands {
            messages: self.messages.with(x),
            atoms: self.atoms,
        }
    }

    // And that the value of a node be a message.
    #[tactic(auto, using(crate::proofs::Asking::asks_message))]
    pub(crate) fn with_message(self, nodes: &KeyedNodes, n: NodeNo) -> Demands
        requires { n.0 < length (nodes_in nodes.now.nodes) }
        ensures { WithMessage self (term (nodes_in nodes.now.nodes) n.0) result }
    {
        Demands {
            messages: self.messages.union(nodes.variables(n)),
            atoms: self.atoms.union(nodes.keys(n)),
        }
    }

    // And that the value of a node be a name; that of a pair or a seal is none.
    #[tactic(auto, using(crate::proofs::Asking::asks_atom))]
    pub(crate) fn with_atom(self, nodes: &KeyedNodes, n: NodeNo) -> Option<Demands>
        requires { n.0 < length (nodes_in nodes.now.nodes) }
        ensures { MatchOption result (Atom (term (nodes_in nodes.now.nodes) n.0) → ⊥) (λ d. WithAtom self (term (nodes_in nodes.now.nodes) n.0) d) }
    {
        if !nodes.is_atom(n) {
            return None;
        }
        Some(Demands {
            messages: self.messages,
            atoms: self.atoms.union(nodes.variables(n)),
        })
    }
}
