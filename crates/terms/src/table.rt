// A table of nodes, each of which refers only to nodes before it, with the variables of each term.
ghost use Rattle.std.specs.Prelude.{◌≡◌, ℕ, ◌<◌, ◌≤◌, true, [], ◌∷◌, ◌++◌, map, length, IfOk, vec_len, Decides, bit_or};
ghost use Rattle.terms.specs.Bits.{varset};
ghost use Rattle.terms.specs.Nodes.{ordered?, node, says, term, Below, Narrow, Found, Pushed, Unfolds};
ghost use Rattle.terms.specs.Sets.{bits, set_of, sets, Gathered};
ghost use Rattle.terms.specs.declared.node.Node.TheVariants.{Var};

use crate::node::{Node, NodeFault};
use crate::number::{NodeNo, VARIABLES};
use crate::variables::VarSet;
use std::alloc::{AllocError, Global};

// It has no model: matching rests on the order of its nodes, a ghost field, which a view would hide.
#[derive(Drop)]
pub struct NodeTable {
    nodes: Vec<Node>,
    // A list of its own, though each set goes with a node: the nodes are lent as one slice.
    variables: Vec<VarSet>,
    ghost ordered: { ordered? 0 nodes.items ≡ true },
    ghost gathered: { variables.items ≡ sets nodes.items },
    ghost narrow: { (i x : ℕ) → i < length nodes.items → node nodes.items i ≡ Var (record { 0 = x }) → x < 64 },
}

// The law by which terms are reasoned about: the term of a node is what the node says over the terms of its parts.
pub fn terms_unfold()
    ensures { Unfolds }
{}

// A table with the same nodes.
impl Clone for NodeTable {
    ghost use Rattle.terms.specs.Tables.{nodes_in};

    ghost is_clone = { λ t u. nodes_in u ≡ nodes_in t };

    fn clone(&self) -> Result<NodeTable, AllocError> {
        // each list in one piece, and not item by item as a list is cloned
        let nodes = Vec::from_slice(*self.nodes.allocator(), self.as_slice())?;
        let variables = Vec::from_slice(*self.variables.allocator(), self.variables.as_slice())?;
        Ok(NodeTable { nodes, variables })
    }
}

impl NodeTable {
    ghost use Rattle.terms.specs.Tables.{nodes_in};

    pub fn new(heap: Global) -> NodeTable
        ensures { nodes_in result ≡ [] }
    {
        NodeTable {
            nodes: Vec::new(heap),
            variables: Vec::new(heap),
        }
    }

    pub fn len(&self) -> usize
        ensures { result ≡ length (nodes_in self.now) }
    {
        self.nodes.len()
    }

    pub fn as_slice(&self) -> &[Node]
        ensures { result.now ≡ nodes_in self.now }
    {
        self.nodes.as_slice()
    }

    pub fn get(&self, n: NodeNo) -> Option<Node>
        ensures { Found (nodes_in self.now) n.0 result }
    {
        self.as_slice().get(n.0 as usize).copied()
    }

    // The variables of the term of a node.
    pub fn variables(&self, n: NodeNo) -> Option<VarSet>
        ensures { Gathered (nodes_in self.now) n.0 result }
    {
        self.variables.as_slice().get(n.0 as usize).copied()
    }

    // Whether a number is some node's.
    pub fn contains(&self, n: NodeNo) -> bool
        ensures { Decides result (n.0 < length (nodes_in self.now)) }
    {
        (n.0 as usize) < self.len()
    }

    // Whether each reference of a node is to a node of the table.
    fn has_parts(&self, node: Node) -> bool
        ensures { Decides result (Below (length (nodes_in self.now)) node) }
    {
        match node {
            Node::Pair { left: a, right: b } | Node::Seal { body: a, key: b } => {
                self.contains(a) && self.contains(b)
            }
            Node::Name(_) | Node::Env(_) | Node::Var(_) => true,
        }
    }

    // The variables of the term that a node would have in the table.
    fn gather(&self, node: Node) -> VarSet
        requires { (Below (length (nodes_in self.now)) node) × (Narrow node) }
        ensures { result ≡ set_of (says (term (nodes_in self.now)) node) }
    {
        match node {
            Node::Name(_) | Node::Env(_) => VarSet::empty(),
            Node::Var(v) => VarSet::empty().with(v),
            Node::Pair { left: a, right: b } | Node::Seal { body: a, key: b } => self.join(a, b),
        }
    }

    fn join(&self, a: NodeNo, b: NodeNo) -> VarSet
        requires { (a.0 < length (nodes_in self.now)) × (b.0 < length (nodes_in self.now)) }
        ensures { bits result ≡ bit_or (varset (term (nodes_in self.now) a.0)) (varset (term (nodes_in self.now) b.0)) }
    {
        self.variables[a.0 as usize].union(self.variables[b.0 as usize])
    }

    // One node more, where its references are to nodes of the table and its variable is below 64.
    pub fn push(&mut self, node: Node) -> Result<(), NodeFault>
        ensures { Pushed (nodes_in self.old) node result (nodes_in self.new) }
    {
        if !self.has_parts(node) {
            return Err(NodeFault::Reference);
        }
        if !narrow(node) {
            return Err(NodeFault::Variable);
        }
        let set = self.gather(node);
        self.variables.reserve(1)?;
        self.nodes.push(node)?;
        self.variables.push_reserved(set);
        Ok(())
    }
}

fn narrow(node: Node) -> bool
    ensures { Decides result (Narrow node) }
{
    match node {
        Node::Var(v) => v.0 < VARIABLES,
        _ => true,
    }
}
