// What is asked of the values of variables is followed through the bindings: a bound variable passes it on to its node.
ghost use Rattle.std.specs.Prelude.{◌<◌, length};
ghost use Rattle.terms.specs.Nodes.{term};
ghost use Rattle.terms.specs.Tables.{nodes_in};
ghost use Rattle.unification.specs.Bindings.{Within};
ghost use Rattle.limits.specs.Following.{MessagePassed, AtomPassed, Passed, Followed, Settled};

use crate::demands::Demands;
use crate::keys::KeyedNodes;
use matching::Binding;

impl Demands {
    #[tactic(auto, using(crate::proofs::Following::message_passed, crate::proofs::Following::message_past))]
    fn pass_message(self, nodes: &KeyedNodes, b: Binding) -> Demands
        requires { b.node.0 < length (nodes_in nodes.now.nodes) }
        ensures { MessagePassed self b.variable.0 (term (nodes_in nodes.now.nodes) b.node.0) result }
    {
        if self.messages.contains(b.variable) {
            self.with_message(nodes, b.node)
        } else {
            self
        }
    }

    #[tactic(auto, using(crate::proofs::Following::atom_passed, crate::proofs::Following::atom_past, crate::proofs::Following::atom_stops))]
    fn pass_atom(self, nodes: &KeyedNodes, b: Binding) -> Option<Demands>
        requires { b.node.0 < length (nodes_in nodes.now.nodes) }
        ensures { AtomPassed self b.variable.0 (term (nodes_in nodes.now.nodes) b.node.0) result }
    {
        if self.atoms.contains(b.variable) {
            self.with_atom(nodes, b.node)
        } else {
            Some(self)
        }
    }

    // One binding; none where no values meet what is asked.
    #[tactic(auto, using(crate::proofs::Following::passed_both))]
    fn pass(self, nodes: &KeyedNodes, b: Binding) -> Option<Demands>
        requires { b.node.0 < length (nodes_in nodes.now.nodes) }
        ensures { Passed self b.variable.0 (term (nodes_in nodes.now.nodes) b.node.0) result }
    {
        self.pass_message(nodes, b).pass_atom(nodes, b)
    }

    // One look through the bindings.
    fn follow(self, nodes: &KeyedNodes, bindings: &[Binding]) -> Option<Demands>
        requires { Within (nodes_in nodes.now.nodes) bindings.now }
        ensures { Followed (nodes_in nodes.now.nodes) bindings.now self result }
    {
        let mut all = self;
        for b in bindings {
            all = all.pass(nodes, *b)?;
        }
        Some(all)
    }

    // Looks through the bindings until nothing more is asked.
    pub(crate) fn settle(self, nodes: &KeyedNodes, bindings: &[Binding]) -> Option<Demands>
        requires { Within (nodes_in nodes.now.nodes) bindings.now }
        ensures { Settled (nodes_in nodes.now.nodes) bindings.now self result }
    {
        let mut all = self;
        loop {
            let more = all.follow(nodes, bindings)?;
            if more == all {
                return Some(all);
            }
            all = more;
        }
    }
}
