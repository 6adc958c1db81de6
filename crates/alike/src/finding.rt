// Heads are found, those of parts and of the nodes of bindings first, until every node has one.
ghost use Rattle.std.specs.Prelude.{◌≡◌, Decides};
ghost use Rattle.terms.specs.Tables.{nodes_in};
ghost use Rattle.alike.specs.Finding.{Valued, Leads, Fits, Sought, Answered, Fresh, Told, Ended};

use crate::heads::{Alike, NODES};
use terms::{Node, NodeNo, NodeTable, Variable};
use unification::Binding;

// The node that the variable is bound to.
fn value(bindings: &[Binding], x: Variable) -> Option<NodeNo>
    ensures { Valued bindings.now x.0 result }
{
    for b in bindings {
        if b.variable == x {
            return Some(b.node);
        }
    }
    None
}

// The node that this one, as a bound variable, is bound to.
fn led(bindings: &[Binding], node: Node) -> Option<NodeNo>
    ensures { Leads bindings.now node result }
{
    match node {
        Node::Var(x) => value(bindings, x),
        Node::Name(_) | Node::Env(_) | Node::Pair { .. } | Node::Seal { .. } => None,
    }
}

impl Alike {
    // Whether the node is a head with the key.
    fn fits(&self, nodes: &NodeTable, n: NodeNo, key: Node) -> bool
        ensures { Decides result (Fits (nodes_in nodes.now) self.now n.0 key) }
    {
        if self.head(n) != Some(n) {
            return false;
        }
        let Some(node) = nodes.get(n) else {
            return false;
        };
        self.key(node) == Some(key)
    }

    // The head with the key, or this node where there is none.
    fn seek(&self, nodes: &NodeTable, n: NodeNo, key: Node) -> NodeNo
        ensures { Sought (nodes_in nodes.now) self.now n.0 key result }
    {
        for i in 0..nodes.len().min(NODES) {
            let c = NodeNo(i as u16);
            if self.fits(nodes, c, key) {
                return c;
            }
        }
        n
    }

    // The head that a node without one comes to have, as far as the heads of its parts tell.
    fn find(&self, nodes: &NodeTable, bindings: &[Binding], n: NodeNo) -> Option<NodeNo>
        ensures { Answered (nodes_in nodes.now) bindings.now self.now n.0 result }
    {
        if self.head(n).is_some() {
            return None;
        }
        let node = nodes.get(n)?;
        if let Some(v) = led(bindings, node) {
            return self.head(v);
        }
        let key = self.key(node)?;
        Some(self.seek(nodes, n, key))
    }

    // The first node that comes to have a head, and that head.
    fn next(&self, nodes: &NodeTable, bindings: &[Binding]) -> Option<(NodeNo, NodeNo)>
        ensures { Fresh (nodes_in nodes.now) bindings.now self.now result }
    {
        for i in 0..nodes.len().min(NODES) {
            let n = NodeNo(i as u16);
            if let Some(c) = self.find(nodes, bindings, n) {
                return Some((n, c));
            }
        }
        None
    }
}

// Which nodes of a table have one value under the bindings of a matching of that table. The table and the bindings are asked
// for, since a matching lends no nodes.
pub fn alike(nodes: &NodeTable, bindings: &[Binding]) -> Alike
    ensures values { Told (nodes_in nodes.now) bindings.now result }
    ensures heads { Ended (nodes_in nodes.now) bindings.now result }
{
    let mut alike = Alike::none();
    while let Some((n, c)) = alike.next(nodes, bindings) {
        alike.set(n, c);
    }
    alike
}
