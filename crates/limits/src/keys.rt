// The nodes of a table, with the variables that stand in keys of each term.
ghost use Rattle.std.specs.Prelude.{◌≡◌, ℕ, ◌<◌, ◌≤◌, length, IfOk, Decides, vec_len};
ghost use Rattle.terms.specs.Bits.{varset};
ghost use Rattle.terms.specs.Nodes.{Below, term};
ghost use Rattle.terms.specs.Sets.{bits};
ghost use Rattle.terms.specs.Tables.{nodes_in};
ghost use Rattle.terms.specs.Terms.{Atom};
ghost use Rattle.limits.specs.Keys.{keyset, key_says, partless?, set_at};

use std::alloc::{AllocError, Global};
use terms::{Node, NodeNo, NodeTable, VarSet};

#[derive(Drop)]
pub struct KeyedNodes {
    pub(crate) nodes: NodeTable,
    // for each node the variables in keys of its term
    keys: Vec<VarSet>,
    ghost fits: { vec_len keys ≡ length (nodes_in nodes) },
    ghost told: { (i : ℕ) → i < length (nodes_in nodes) → set_at keys.items i ≡ keyset (term (nodes_in nodes) i) },
}

// The variables in keys of the term that a node says, from those of its parts.
fn keys_said(nodes: &NodeTable, keys: &[VarSet], node: Node) -> VarSet
    requires below { Below (length keys.now) node }
    requires within { length keys.now ≤ length (nodes_in nodes.now) }
    ensures { bits result ≡ key_says (set_at keys.now) (λ i. varset (term (nodes_in nodes.now) i)) node }
{
    match node {
        Node::Name(_) | Node::Env(_) | Node::Var(_) => VarSet::empty(),
        Node::Pair { left, right } => keys[left.0 as usize].union(keys[right.0 as usize]),
        Node::Seal { body, key } => {
            let locks = nodes.variables(key).unwrap();
            keys[body.0 as usize].union(locks)
        }
    }
}

// One visit a node: each set is made of those before it.
fn all_keys(heap: Global, nodes: &NodeTable) -> Result<Vec<VarSet>, AllocError>
    ensures size { IfOk result (λ v. vec_len v ≡ length (nodes_in nodes.now)) }
    ensures told { IfOk result (λ v. (i : ℕ) → i < length (nodes_in nodes.now) → set_at v.items i ≡ keyset (term (nodes_in nodes.now) i)) }
{
    let mut keys = Vec::with_capacity(heap, nodes.len())?;
    for node in nodes.as_slice() {
        let set = keys_said(nodes, keys.as_slice(), *node);
        keys.push(set)?;
    }
    Ok(keys)
}

impl KeyedNodes {
    pub(crate) fn of(heap: Global, nodes: NodeTable) -> Result<KeyedNodes, AllocError>
        ensures { IfOk result (λ k. nodes_in k.nodes ≡ nodes_in nodes) }
    {
        let keys = all_keys(heap, &nodes)?;
        Ok(KeyedNodes { nodes, keys })
    }

    // The variables of the term of a node. That a number is some node's is said of numbers, as the matching says it.
    pub(crate) fn variables(&self, n: NodeNo) -> VarSet
        requires { n.0 < length (nodes_in self.now.nodes) }
        ensures { bits result ≡ varset (term (nodes_in self.now.nodes) n.0) }
    {
        self.nodes.variables(n).unwrap()
    }

    // The variables in keys of the term of a node.
    pub(crate) fn keys(&self, n: NodeNo) -> VarSet
        requires { n.0 < length (nodes_in self.now.nodes) }
        ensures { bits result ≡ keyset (term (nodes_in self.now.nodes) n.0) }
    {
        self.keys[n.0 as usize]
    }

    // Whether the term of a node is a name or a variable.
    #[tactic(auto, using(crate::proofs::Keying::atom_told))]
    pub(crate) fn is_atom(&self, n: NodeNo) -> bool
        requires { n.0 < length (nodes_in self.now.nodes) }
        ensures { Decides result (Atom (term (nodes_in self.now.nodes) n.0)) }
    {
        has_no_parts(self.nodes.get(n).unwrap())
    }
}

fn has_no_parts(node: Node) -> bool
    ensures { result ≡ partless? node }
{
    matches!(node, Node::Name(_) | Node::Env(_) | Node::Var(_))
}
