// Marked nodes are taken apart, and marked variables followed through the bindings, until nothing changes.
ghost use Rattle.std.specs.Prelude.{◌≡◌, ℕ, ◌<◌, false, List, length, get_or, Decides};
ghost use Rattle.terms.specs.Nodes.{node};
ghost use Rattle.terms.specs.Sets.{bits};
ghost use Rattle.terms.specs.Tables.{nodes_in};
ghost use Rattle.unification.specs.Bindings.{no_binding};
ghost use Rattle.reach.specs.Parts.{marked, named, sealed, Opens};
ghost use Rattle.reach.specs.Steps.{Step, Marking, TakenApart, OpenPassed, MarkPassed, OpensPassed, MarksPassed, AllMarked, Each, Rests, Settled};

use crate::numbers::{NUMBERS, Numbers};
use crate::parts::Parts;
use terms::{Node, NodeNo, NodeTable, VARIABLES, VarSet};
use unification::Binding;

impl Parts {
    // Nothing is reached; the variables that open are those with no value, since such a key is taken for known.
    pub(crate) fn none(unbound: VarSet) -> Parts
        ensures marks { (i : ℕ) → marked result i ≡ false }
        ensures names { (a : ℕ) → named result a ≡ false }
        ensures seals { (i : ℕ) → sealed result i ≡ false }
        ensures variables { bits result.variables ≡ 0 }
        ensures opening { result.opening ≡ unbound }
    {
        Parts {
            marks: Numbers::none(),
            names: Numbers::none(),
            seals: Numbers::none(),
            variables: VarSet::empty(),
            opening: unbound,
        }
    }

    // Marks a node, and says whether that is new.
    pub(crate) fn mark(&mut self, nodes: &NodeTable, n: NodeNo) -> bool
        ensures { Marking (nodes_in nodes.now) self.old n.0 self.new result }
    {
        if self.marks.contains(n.0) {
            return false;
        }
        let Some(node) = nodes.get(n) else {
            return false;
        };
        self.marks.add(n.0);
        match node {
            Node::Name(a) => self.names.add(a.0),
            Node::Seal { .. } => self.seals.add(n.0),
            Node::Var(x) => self.variables = self.variables.with(x),
            Node::Env(_) | Node::Pair { .. } => {}
        }
        true
    }

    // Whether a node opens as a key: its value is a variable, a name of the environment, or a local name that is reached.
    fn opens(&self, nodes: &NodeTable, key: NodeNo) -> bool
        ensures { Decides result ((key.0 < length (nodes_in nodes.now)) × Opens self.now (node (nodes_in nodes.now) key.0)) }
    {
        match nodes.get(key) {
            Some(Node::Name(a)) => self.names.contains(a.0),
            Some(Node::Env(_)) => true,
            Some(Node::Var(x)) => self.opening.contains(x),
            Some(Node::Pair { .. } | Node::Seal { .. }) | None => false,
        }
    }

    // Takes a node apart, if it is marked, and says whether that marked anything.
    fn take_apart(&mut self, nodes: &NodeTable, i: NodeNo) -> bool
        ensures { (B : List Binding) → Step (nodes_in nodes.now) B self.old self.new (TakenApart (nodes_in nodes.now) self.old i.0) result }
    {
        if !self.marks.contains(i.0) {
            return false;
        }
        match nodes.get(i) {
            Some(Node::Pair { left, right }) => {
                let l = self.mark(nodes, left);
                let r = self.mark(nodes, right);
                l || r
            }
            Some(Node::Seal { body, key }) => self.opens(nodes, key) && self.mark(nodes, body),
            Some(Node::Name(_) | Node::Env(_) | Node::Var(_)) | None => false,
        }
    }

    // A bound variable opens where its node does.
    fn open(&mut self, nodes: &NodeTable, b: Binding) -> bool
        ensures { (B : List Binding) (k : ℕ) → k < length B → get_or B k no_binding ≡ b → Step (nodes_in nodes.now) B self.old self.new (OpenPassed (nodes_in nodes.now) self.old b.variable.0 b.node.0) result }
    {
        if b.variable.0 >= VARIABLES
            || self.opening.contains(b.variable)
            || !self.opens(nodes, b.node)
        {
            return false;
        }
        self.opening = self.opening.with(b.variable);
        true
    }

    // A marked variable marks its node.
    fn follow(&mut self, nodes: &NodeTable, b: Binding) -> bool
        ensures { (B : List Binding) (k : ℕ) → k < length B → get_or B k no_binding ≡ b → Step (nodes_in nodes.now) B self.old self.new (MarkPassed (nodes_in nodes.now) self.old b.variable.0 b.node.0) result }
    {
        self.variables.contains(b.variable) && self.mark(nodes, b.node)
    }

    // Takes each marked node apart once, the later ones first since parts stand before their wholes.
    fn take_all(&mut self, nodes: &NodeTable) -> bool
        ensures { (B : List Binding) → Step (nodes_in nodes.now) B self.old self.new (Each (TakenApart (nodes_in nodes.now) self.old) 0 (length (nodes_in nodes.now))) result }
    {
        let mut changed = false;
        for i in (0..nodes.len().min(NUMBERS)).rev() {
            if self.take_apart(nodes, NodeNo(i as u16)) {
                changed = true;
            }
        }
        changed
    }

    // Follows each binding once.
    fn follow_all(&mut self, nodes: &NodeTable, bindings: &[Binding]) -> bool
        ensures { Step (nodes_in nodes.now) bindings.now self.old self.new (Each (MarksPassed (nodes_in nodes.now) bindings.now self.old) 0 (length bindings.now)) result }
    {
        let mut changed = false;
        for b in bindings {
            if self.follow(nodes, *b) {
                changed = true;
            }
        }
        changed
    }

    // Opens the variable of each binding where its node opens.
    fn open_all(&mut self, nodes: &NodeTable, bindings: &[Binding]) -> bool
        ensures { Step (nodes_in nodes.now) bindings.now self.old self.new (Each (OpensPassed (nodes_in nodes.now) bindings.now self.old) 0 (length bindings.now)) result }
    {
        let mut changed = false;
        for b in bindings {
            if self.open(nodes, *b) {
                changed = true;
            }
        }
        changed
    }

    // Marks what one look through all bindings and nodes leads to.
    fn mark_all(&mut self, nodes: &NodeTable, bindings: &[Binding]) -> bool
        ensures { Step (nodes_in nodes.now) bindings.now self.old self.new (AllMarked (nodes_in nodes.now) bindings.now self.old) result }
    {
        let followed = self.follow_all(nodes, bindings);
        let taken = self.take_all(nodes);
        followed || taken
    }

    // One look through everything.
    fn pass(&mut self, nodes: &NodeTable, bindings: &[Binding]) -> bool
        ensures { Step (nodes_in nodes.now) bindings.now self.old self.new (Rests (nodes_in nodes.now) bindings.now self.old) result }
    {
        let marked = self.mark_all(nodes, bindings);
        let opened = self.open_all(nodes, bindings);
        marked || opened
    }

    // All that comes of what is marked. Each look but the last changes something.
    pub(crate) fn settle(&mut self, nodes: &NodeTable, bindings: &[Binding])
        ensures { Settled (nodes_in nodes.now) bindings.now self.old self.new }
    {
        while self.pass(nodes, bindings) {}
    }
}
