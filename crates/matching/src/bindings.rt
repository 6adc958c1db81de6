// The bindings of a matching, oldest first, with an index from variables to them.
ghost use Rattle.std.specs.Prelude.{◌≡◌, ℕ, ◌<◌, ◌≤◌, [], ◌++◌, length, take, IfOk, vec_len, vec_capacity};
ghost use Rattle.std.proofs.Props.{props};
ghost use Rattle.terms.specs.Sets.{bits};
ghost use Rattle.terms.specs.Tables.{nodes_in};
ghost use Rattle.terms.specs.declared.node.Node.TheVariants.{Var};
ghost use Rattle.unification.specs.Bindings.{Good, Unbound, Within, Walked};
ghost use Rattle.unification.specs.Index.{Indexed, Placed, Counted};
ghost use Rattle.unification.specs.Reaching.{Widened, Start, Answered};
ghost use Rattle.unification.specs.Steps.{with_binding, Assigned};

use std::alloc::{AllocError, Global};
use terms::{Node, NodeNo, NodeTable, VARIABLES, VarSet};
use unification::Binding;

#[derive(Drop)]
pub struct Bindings {
    list: Vec<Binding>,
    // for each variable the place of its binding, if it has one: there are no more than 64, so a byte holds it. A map would take
    // memory at each binding
    index: Vec<Option<u8>>,
    ghost indexed: { Indexed list.items index.items } by { Prim.hlevel props },
    ghost counted: { Counted list.items index.items },
    ghost wide: { vec_len index ≡ 64 },
    ghost roomy: { 64 ≤ vec_capacity list },
}

impl Bindings {
    pub(crate) fn new(heap: Global) -> Result<Bindings, AllocError>
        ensures { IfOk result (λ b. b.list.items ≡ []) }
    {
        let list = Vec::with_capacity(heap, VARIABLES as usize)?;
        let index = vec![in heap; None; VARIABLES as usize]?;
        Ok(Bindings { list, index })
    }

    pub(crate) fn len(&self) -> usize
        ensures { result ≡ length self.now.list.items }
    {
        self.list.len()
    }

    pub(crate) fn as_slice(&self) -> &[Binding]
        ensures { result.now ≡ self.now.list.items }
    {
        self.list.as_slice()
    }

    // The place of the binding of a node that is a bound variable. The table says that its variables are below 64, and so do
    // the three calls that take one: a type for such variables would be asked of whoever makes a node.
    fn place(&self, node: Node) -> Option<u8>
        requires { (x : ℕ) → node ≡ Var (record { 0 = x }) → x < 64 }
        ensures { Placed self.now.list.items node result }
    {
        match node {
            Node::Var(x) => self.index[x.0 as usize],
            _ => None,
        }
    }

    // The node at which the walk from n through the bindings ends. That bindings are good is said of them and a table, which
    // no type here holds but the solver, and a part of it is changed while another is read.
    pub(crate) fn walk(&self, nodes: &NodeTable, n: NodeNo) -> NodeNo
        requires good { ∥ Good (nodes_in nodes.now) self.now.list.items ∥₁ }
        requires within { n.0 < length (nodes_in nodes.now) }
        ensures { Walked (nodes_in nodes.now) self.now.list.items n.0 result.0 }
    {
        let table = nodes.as_slice();
        let mut here = n;
        while let Some(k) = self.place(table[here.0 as usize]) {
            here = self.list[k as usize].node;
        }
        here
    }

    // The set with the variables that one look through the bindings leads to.
    fn widen(&self, nodes: &NodeTable, reach: VarSet) -> VarSet
        requires { Within (nodes_in nodes.now) self.now.list.items }
        ensures { Widened (nodes_in nodes.now) self.now.list.items (bits reach) (bits result) }
    {
        let mut all = reach;
        for b in &self.list {
            if all.contains(b.variable) {
                let set = nodes.variables(b.node).unwrap();
                all = all.union(set);
            }
        }
        all
    }

    // Whether the variable of a new binding is reached from its node through terms and bindings.
    fn reaches(&self, nodes: &NodeTable, b: Binding) -> bool
        requires good { ∥ Good (nodes_in nodes.now) self.now.list.items ∥₁ }
        requires within { b.node.0 < length (nodes_in nodes.now) }
        requires start { Start (nodes_in nodes.now) self.now.list.items b.variable.0 b.node.0 }
        ensures { Answered (nodes_in nodes.now) self.now.list.items b.variable.0 b.node.0 result }
    {
        let mut reach = nodes.variables(b.node).unwrap();
        while !reach.contains(b.variable) {
            let wider = self.widen(nodes, reach);
            if wider.is_subset(reach) {
                return false;
            }
            reach = wider;
        }
        true
    }

    fn put(&mut self, b: Binding)
        requires unbound { Unbound self.old.list.items b.variable.0 }
        requires narrow { b.variable.0 < 64 }
        ensures { self.new.list.items ≡ with_binding self.old.list.items b.variable.0 b.node.0 }
    {
        self.index[b.variable.0 as usize] = Some(self.list.len() as u8);
        self.list.push_reserved(b);
    }

    // Takes the binding, unless its variable is reached from its node.
    pub(crate) fn assign(&mut self, nodes: &NodeTable, b: Binding) -> bool
        requires good { ∥ Good (nodes_in nodes.now) self.old.list.items ∥₁ }
        requires within { b.node.0 < length (nodes_in nodes.now) }
        requires unbound { Unbound self.old.list.items b.variable.0 }
        requires narrow { b.variable.0 < 64 }
        requires start { Start (nodes_in nodes.now) self.old.list.items b.variable.0 b.node.0 }
        ensures { Assigned (nodes_in nodes.now) self.old.list.items b.variable.0 b.node.0 self.new.list.items result }
    {
        if self.reaches(nodes, b) {
            return false;
        }
        self.put(b);
        true
    }

    // The first n bindings stay. One is taken at a time, so that list and index agree after each turn; to drain the list would
    // be no plainer, since the index has to be cleared for each all the same.
    pub(crate) fn cut(&mut self, n: usize)
        ensures { self.new.list.items ≡ take n self.old.list.items }
    {
        while self.list.len() > n
            && let Some(b) = self.list.pop()
        {
            self.index[b.variable.0 as usize] = None;
        }
    }
}
