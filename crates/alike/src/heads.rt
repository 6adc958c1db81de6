// The head of each node: one node for all of the same value.
ghost use Rattle.std.specs.Prelude.{◌≡◌, ℕ, None, Decides};

use terms::{Node, NodeNo};

// the number of a node is below this
pub(crate) const NODES: usize = 65536;

// one head for each number that a node can have, so that it takes no memory of the caller's
#[derive(Drop)]
pub struct Alike {
    heads: [Option<NodeNo>; NODES],
}

impl Alike {
    ghost use Rattle.alike.specs.Heads.{head, key, Same, Headed};

    // No head is known.
    pub(crate) fn none() -> Alike
        ensures { (i : ℕ) → head result i ≡ None }
    {
        Alike {
            heads: [None; NODES],
        }
    }

    // One node for all of the same value; it is no bound variable.
    pub fn head(&self, n: NodeNo) -> Option<NodeNo>
        ensures { result ≡ head self.now n.0 }
    {
        self.heads[n.0 as usize]
    }

    pub(crate) fn set(&mut self, n: NodeNo, head: NodeNo)
        ensures { Headed self.old n.0 head self.new }
    {
        self.heads[n.0 as usize] = Some(head);
    }

    // The node with heads for its parts, where these have some.
    pub(crate) fn key(&self, node: Node) -> Option<Node>
        ensures { result ≡ key self.now node }
    {
        match node {
            Node::Pair { left, right } => Some(Node::Pair {
                left: self.head(left)?,
                right: self.head(right)?,
            }),
            Node::Seal { body, key } => Some(Node::Seal {
                body: self.head(body)?,
                key: self.head(key)?,
            }),
            Node::Name(_) | Node::Env(_) | Node::Var(_) => Some(node),
        }
    }

    // Whether both are nodes of the table, with one value.
    pub fn same(&self, a: NodeNo, b: NodeNo) -> bool
        ensures { Decides result (Same self.now a.0 b.0) }
    {
        let Some(c) = self.head(a) else {
            return false;
        };
        let Some(d) = self.head(b) else {
            return false;
        };
        c == d
    }
}
