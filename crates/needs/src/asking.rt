// What is asked for on account of what is, and how it is judged.
ghost use Rattle.std.specs.Prelude.{ℕ, ◌+◌, ◌^◌, ◌≤◌, Decides, length};
ghost use Rattle.terms.specs.Tables.{nodes_in};
ghost use Rattle.terms.specs.declared.variables.VarSet.{VarSet};
ghost use Rattle.needs.specs.Asking.{Opens, Fresh, Lacks, LacksAt, Next, Boxed, Judged, JudgedAt, JudgedAll, Collected};

use crate::answer::Need;
use crate::asked::{Asked, NODES};
use alike::Alike;
use reach::Reach;
use terms::{Node, NodeNo, NodeTable, VarSet};

// Whether the node has the value of a seal that is reached.
fn boxed(reached: &Reach, alike: &Alike, n: NodeNo) -> bool
    ensures { Decides result (Boxed reached.now alike.now n.0) }
{
    for i in 0..NODES {
        let c = NodeNo(i as u16);
        if reached.has_seal(c) && alike.same(n, c) {
            return true;
        }
    }
    false
}

impl Asked {
    // Whether the node opens what it is the key of.
    fn opens(
        &self,
        nodes: &NodeTable,
        reached: &Reach,
        alike: &Alike,
        marked: VarSet,
        key: NodeNo,
    ) -> bool
        ensures { Decides result (Opens (nodes_in nodes.now) reached.now alike.now marked self.now key) }
    {
        let Some(c) = alike.head(key) else {
            return false;
        };
        match nodes.get(c) {
            Some(Node::Name(a)) => reached.has_name(a),
            Some(Node::Env(_)) => true,
            Some(Node::Var(x)) => marked.contains(x) || self.has(c),
            Some(Node::Pair { .. } | Node::Seal { .. }) | None => false,
        }
    }

    // The head of a part, where it is not asked for.
    fn fresh(&self, alike: &Alike, part: NodeNo) -> Option<NodeNo>
        ensures { Fresh alike.now self.now part result }
    {
        let c = alike.head(part)?;
        if self.has(c) { None } else { Some(c) }
    }

    // The head of a part that the node needs and that is not asked for.
    fn lacking(
        &self,
        nodes: &NodeTable,
        reached: &Reach,
        alike: &Alike,
        marked: VarSet,
        node: Node,
    ) -> Option<NodeNo>
        ensures { Lacks (nodes_in nodes.now) reached.now alike.now marked self.now node result }
    {
        match node {
            Node::Pair { left, right } => {
                if let Some(c) = self.fresh(alike, left) {
                    return Some(c);
                }
                self.fresh(alike, right)
            }
            Node::Seal { body, key } => {
                if !self.opens(nodes, reached, alike, marked, key) {
                    return None;
                }
                self.fresh(alike, body)
            }
            Node::Name(_) | Node::Env(_) | Node::Var(_) => None,
        }
    }

    // The same of a node with a number, if it is asked for.
    fn lacking_at(
        &self,
        nodes: &NodeTable,
        reached: &Reach,
        alike: &Alike,
        marked: VarSet,
        n: NodeNo,
    ) -> Option<NodeNo>
        ensures { LacksAt (nodes_in nodes.now) reached.now alike.now marked self.now n.0 result }
    {
        if !self.has(n) {
            return None;
        }
        let node = nodes.get(n)?;
        self.lacking(nodes, reached, alike, marked, node)
    }

    // One node more that is to be asked for.
    pub(crate) fn next(
        &self,
        nodes: &NodeTable,
        reached: &Reach,
        alike: &Alike,
        marked: VarSet,
    ) -> Option<NodeNo>
        ensures { Next (nodes_in nodes.now) reached.now alike.now marked self.now result }
    {
        for i in 0..nodes.len().min(NODES) {
            if let Some(c) = self.lacking_at(nodes, reached, alike, marked, NodeNo(i as u16)) {
                return Some(c);
            }
        }
        None
    }

    // What speaks against the node.
    fn judge(
        &self,
        nodes: &NodeTable,
        reached: &Reach,
        alike: &Alike,
        marked: VarSet,
        n: NodeNo,
        node: Node,
    ) -> Option<Need>
        ensures { Judged (nodes_in nodes.now) reached.now alike.now marked self.now n.0 node result }
    {
        match node {
            Node::Name(a) => {
                if reached.has_name(a) {
                    None
                } else {
                    Some(Need::Never)
                }
            }
            Node::Seal { key, .. } => {
                if self.opens(nodes, reached, alike, marked, key) || boxed(reached, alike, n) {
                    return None;
                }
                let c = alike.head(key)?;
                match nodes.get(c)? {
                    Node::Name(_) => Some(Need::Shut(n)),
                    Node::Var(x) => Some(Need::Keyed(n, x)),
                    Node::Pair { .. } | Node::Seal { .. } => Some(Need::Never),
                    Node::Env(_) => None,
                }
            }
            Node::Env(_) | Node::Var(_) | Node::Pair { .. } => None,
        }
    }

    // The same of a node with a number, if it is asked for.
    fn judge_at(
        &self,
        nodes: &NodeTable,
        reached: &Reach,
        alike: &Alike,
        marked: VarSet,
        n: NodeNo,
    ) -> Option<Need>
        ensures { JudgedAt (nodes_in nodes.now) reached.now alike.now marked self.now n.0 result }
    {
        if !self.has(n) {
            return None;
        }
        let node = nodes.get(n)?;
        self.judge(nodes, reached, alike, marked, n, node)
    }

    // What speaks against some node that is asked for.
    pub(crate) fn judge_all(
        &self,
        nodes: &NodeTable,
        reached: &Reach,
        alike: &Alike,
        marked: VarSet,
    ) -> Option<Need>
        ensures { JudgedAll (nodes_in nodes.now) reached.now alike.now marked self.now result }
    {
        for i in 0..nodes.len().min(NODES) {
            if let Some(w) = self.judge_at(nodes, reached, alike, marked, NodeNo(i as u16)) {
                return Some(w);
            }
        }
        None
    }

    // The marked variables, and the variable that the node is, if it is asked for.
    fn with_variable(&self, nodes: &NodeTable, n: NodeNo, set: VarSet) -> VarSet
        ensures { (m : VarSet) → Collected (nodes_in nodes.now) m self.now n.0 set → Collected (nodes_in nodes.now) m self.now (n.0 + 1) result }
    {
        if !self.has(n) {
            return set;
        }
        match nodes.get(n) {
            Some(Node::Var(x)) => set.with(x),
            Some(Node::Name(_) | Node::Env(_) | Node::Pair { .. } | Node::Seal { .. }) | None =>
                set,
        }
    }

    // The marked variables and those that are asked for.
    pub(crate) fn variables(&self, nodes: &NodeTable, marked: VarSet) -> VarSet
        ensures { (n : ℕ) → n ≤ length (nodes_in nodes.now) → n ≤ 2 ^ 16 → Collected (nodes_in nodes.now) marked self.now n result }
    {
        let mut set = marked;
        for i in 0..nodes.len().min(NODES) {
            set = self.with_variable(nodes, NodeNo(i as u16), set);
        }
        set
    }
}
