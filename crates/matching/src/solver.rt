// The loop of a match: pairs wait on a stack, latest first, until none is left or one cannot be made equal.
ghost use Rattle.std.specs.Prelude.{◌≡◌, ℕ, ◌+◌, ◌<◌, ◌≤◌, [], ◌∷◌, ◌++◌, length, vec_len};
ghost use Rattle.terms.specs.Tables.{nodes_in};
ghost use Rattle.stack.specs.Waiting.{waiting, room};
ghost use Rattle.unification.specs.Bindings.{Good};
ghost use Rattle.unification.specs.Steps.{heads, Stepped, Matched};

use crate::bindings::Bindings;
use crate::classes::{Classes, wait};
use stack::Stack;
use terms::NodeTable;
use unification::{Ask, Binding, Compared, compare};

// The nodes, the bindings so far, and which nodes have to be equal.
#[derive(Drop)]
pub struct Solver {
    pub(crate) nodes: NodeTable,
    pub(crate) bindings: Bindings,
    pub(crate) classes: Classes,
    ghost good: { ∥ Good (nodes_in nodes) bindings.list.items ∥₁ },
    ghost fits: { vec_len classes.parents ≡ length (nodes_in nodes) },
}

impl Solver {
    // One waiting pair: yes, and what it asks is bound or waits; or no. The stack is over the caller's memory, so it is
    // handed in; that a number is some node's is said of numbers: a type for the nodes of one table would be made again of
    // each part that is read. That the nodes and the room of the stack stay is in each contract; a solver that borrowed the
    // nodes would have to say it too.
    fn step(&mut self, asks: &mut Stack<'_, Ask>, w: Ask) -> bool
        requires left { w.left.0 < length (nodes_in self.old.nodes) }
        requires right { w.right.0 < length (nodes_in self.old.nodes) }
        requires free { length (waiting asks.old) + 1 + heads 0 self.old.classes.parents.items ≤ room asks.old }
        ensures answer { Stepped (nodes_in self.old.nodes) self.old.bindings.list.items self.old.classes.parents.items (waiting asks.old) w self.new.bindings.list.items self.new.classes.parents.items (waiting asks.new) result }
        ensures nodes { nodes_in self.new.nodes ≡ nodes_in self.old.nodes }
        ensures size { room asks.new ≡ room asks.old }
    {
        let c = self.bindings.walk(&self.nodes, w.left);
        let d = self.bindings.walk(&self.nodes, w.right);
        let table = self.nodes.as_slice();
        match compare(table[c.0 as usize], table[d.0 as usize]) {
            Compared::Same => true,
            Compared::Clash => false,
            Compared::Left(variable) => {
                self.bindings
                    .assign(&self.nodes, Binding { variable, node: d })
            }
            Compared::Right(variable) => {
                self.bindings
                    .assign(&self.nodes, Binding { variable, node: c })
            }
            Compared::Parts { first, second } => {
                self.classes
                    .join(asks, Ask { left: c, right: d }, first, second);
                true
            }
        }
    }

    // Matches the two nodes of a pair; on no, some bindings may be left at the end.
    pub(crate) fn run(&mut self, memory: &mut [Ask], first: Ask) -> bool
        requires calm { vec_len self.old.classes.linked ≡ 0 }
        requires left { first.left.0 < length (nodes_in self.old.nodes) }
        requires right { first.right.0 < length (nodes_in self.old.nodes) }
        requires roomy { length (nodes_in self.old.nodes) < length memory.old }
        ensures answer { Matched (nodes_in self.old.nodes) self.old.bindings.list.items first.left.0 first.right.0 self.new.bindings.list.items result }
        ensures nodes { nodes_in self.new.nodes ≡ nodes_in self.old.nodes }
    {
        let mut asks = Stack::new(memory);
        wait(&mut asks, first);
        while let Some(w) = asks.pop() {
            if !self.step(&mut asks, w) {
                return false;
            }
        }
        true
    }
}
