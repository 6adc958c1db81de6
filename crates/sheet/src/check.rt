// The checks of a sheet's tables: what comes next, and whether a node, a step or a property is lawful.
ghost use Rattle.std.specs.Prelude.{◌≡◌, ◌<◌, [], length, Decides};
ghost use Rattle.protocol.specs.declared.step.Step.TheVariants as step;
ghost use Rattle.terms.specs.Nodes.{node};
ghost use Rattle.protocol.specs.Lawful.{IsAtom, Apart, SplitPattern};
ghost use Rattle.sheet.specs.View.{content};
ghost use Rattle.entries.specs.Rules.{InOrder, HasRoom, latest_steps};
ghost use Rattle.entries.specs.Decoding.{entry_of};
ghost use Rattle.entries.specs.Growth.{nothing};
ghost use Rattle.sheet.specs.Checking.{Declared, Shaped, SealedVariable, Acted};

use crate::tables::{Shape, Tables};
use entries::Entry;
use protocol::{Action, Direction, Step};
use std::alloc::Global;
use terms::{Label, Node, NodeNo, NodeTable, VarSet, Variable};

const MOST_LABELS: usize = 32;

const MOST_NAMES: usize = 64;

const MOST_VARIABLES: usize = 64;

const MOST_NODES: usize = 256;

const MOST_STRANDS: usize = 8;

const MOST_STEPS: usize = 16;

// Whether a table has the number.
fn has<T>(table: &[T], n: u16) -> bool
    ensures { Decides result (n < length table.now) }
{
    (n as usize) < table.len()
}

impl Tables {
    pub(crate) fn new(heap: Global) -> Tables
        ensures { content result ≡ nothing }
    {
        Tables {
            labels: Vec::new(heap),
            names: Vec::new(heap),
            variables: Vec::new(heap),
            nodes: NodeTable::new(heap),
            strands: Vec::new(heap),
            property: None,
        }
    }

    // Whether an entry may come next: labels, names, variables, nodes, then strands with their steps, then the property.
    pub(crate) fn takes(&self, e: Entry) -> bool
        ensures { Decides result (InOrder (content self.now) (entry_of e.entry)) }
    {
        let before_end = self.property.is_none();
        let before_strands = self.strands.is_empty() && before_end;
        let before_nodes = self.nodes.len() == 0 && before_strands;
        let before_variables = self.variables.is_empty() && before_nodes;
        let before_names = self.names.is_empty() && before_variables;
        match e {
            Entry::Label(_) => before_names,
            Entry::Name(_) => before_variables,
            Entry::Variable(_) => before_nodes,
            Entry::Node(_) => before_strands,
            Entry::Strand => before_end,
            Entry::Step(_) | Entry::Property(_) => !self.strands.is_empty() && before_end,
        }
    }

    // Whether the table of an entry has room for one more.
    pub(crate) fn has_room(&self, e: Entry) -> bool
        ensures { Decides result (HasRoom (content self.now) (entry_of e.entry)) }
    {
        match e {
            Entry::Label(_) => self.labels.len() < MOST_LABELS,
            Entry::Name(_) => self.names.len() < MOST_NAMES,
            Entry::Variable(_) => self.variables.len() < MOST_VARIABLES,
            Entry::Node(_) => self.nodes.len() < MOST_NODES,
            Entry::Strand => self.strands.len() < MOST_STRANDS,
            Entry::Step(_) => self.latest_steps().len() < MOST_STEPS,
            Entry::Property(_) => true,
        }
    }

    // The steps of the latest strand.
    fn latest_steps(&self) -> &[Step]
        ensures { result.now ≡ latest_steps (content self.now) }
    {
        self.strands
            .as_slice()
            .last()
            .map_or(&[], |strand| strand.steps())
    }

    // Whether the names and variables of a node are declared, and its key is a name or a variable.
    pub(crate) fn declares(&self, node: Node) -> bool
        ensures { Decides result (Declared (content self.now) node) }
    {
        match node {
            Node::Name(n) => has(self.names.as_slice(), n.0),
            Node::Env(_) => false,
            Node::Var(x) => has(self.variables.as_slice(), x.0),
            Node::Pair { .. } => true,
            Node::Seal { key, .. } => self.is_atom(key),
        }
    }

    fn is_atom(&self, n: NodeNo) -> bool
        ensures { Decides result ((n.0 < length (content self.now).nodes) × IsAtom (node (content self.now).nodes n.0)) }
    {
        matches!(self.nodes.get(n), Some(Node::Name(_) | Node::Var(_)))
    }

    // A step is data, of which the definitions speak, so there is a match, and each kind has its call.
    // The variables of a lawful step; none where a label, variable or node is missing or a pattern has the wrong form.
    pub(crate) fn shape(&self, step: Step) -> Option<Shape>
        ensures { Shaped (content self.now) step result }
    {
        match step {
            Step::Input { label, variable } => self.input(label, variable),
            Step::Output { label, node } => self.output(label, node),
            Step::Open { subject, pattern } => self.opening(subject, pattern),
            Step::Split { subject, pattern } => self.splitting(subject, pattern),
            Step::Same { left, right } => self.equating(left, right),
        }
    }

    fn input(&self, label: Label, variable: Variable) -> Option<Shape>
        ensures { Shaped (content self.now) (step.Input label variable) result }
    {
        if !has(self.labels.as_slice(), label.0) || !has(self.variables.as_slice(), variable.0) {
            return None;
        }
        Some(Shape {
            binds: VarSet::empty().with(variable),
            uses: VarSet::empty(),
        })
    }

    fn output(&self, label: Label, node: NodeNo) -> Option<Shape>
        ensures { Shaped (content self.now) (step.Output label node) result }
    {
        let uses = self.action(Action {
            direction: Direction::Output,
            label,
            node,
        })?;
        Some(Shape {
            binds: VarSet::empty(),
            uses,
        })
    }

    #[tactic(auto, using(crate::proofs::Shapes::shapes))]
    fn opening(&self, subject: NodeNo, pattern: NodeNo) -> Option<Shape>
        ensures { Shaped (content self.now) (step.Open subject pattern) result }
    {
        let opened = self.nodes.variables(subject)?;
        let (body, key) = self.sealed_variable(pattern)?;
        let binds = self.nodes.variables(body)?;
        let keys = self.nodes.variables(key)?;
        Some(Shape {
            binds,
            uses: opened.union(keys),
        })
    }

    #[tactic(auto, using(crate::proofs::Shapes::shapes))]
    fn splitting(&self, subject: NodeNo, pattern: NodeNo) -> Option<Shape>
        ensures { Shaped (content self.now) (step.Split subject pattern) result }
    {
        let uses = self.nodes.variables(subject)?;
        if !self.pairs_variables(pattern) {
            return None;
        }
        let binds = self.nodes.variables(pattern)?;
        Some(Shape { binds, uses })
    }

    #[tactic(auto, using(crate::proofs::Shapes::shapes))]
    fn equating(&self, left: NodeNo, right: NodeNo) -> Option<Shape>
        ensures { Shaped (content self.now) (step.Same left right) result }
    {
        let one = self.nodes.variables(left)?;
        let other = self.nodes.variables(right)?;
        Some(Shape {
            binds: VarSet::empty(),
            uses: one.union(other),
        })
    }

    // The body and the key of a sealed node whose body is a variable.
    fn sealed_variable(&self, n: NodeNo) -> Option<(NodeNo, NodeNo)>
        ensures { SealedVariable (content self.now).nodes n.0 result }
    {
        let Node::Seal { body, key } = self.nodes.get(n)? else {
            return None;
        };
        matches!(self.nodes.get(body), Some(Node::Var(_))).then_some((body, key))
    }

    // Whether a node is a pair of two different variables.
    fn pairs_variables(&self, n: NodeNo) -> bool
        ensures { Decides result ((n.0 < length (content self.now).nodes) × SplitPattern (content self.now).nodes (node (content self.now).nodes n.0)) }
    {
        matches!(self.nodes.get(n), Some(Node::Pair { left, right }) if self.apart(left, right))
    }

    fn apart(&self, a: NodeNo, b: NodeNo) -> bool
        ensures { Decides result ((a.0 < length (content self.now).nodes) × (b.0 < length (content self.now).nodes) × Apart (node (content self.now).nodes a.0) (node (content self.now).nodes b.0)) }
    {
        matches!((self.nodes.get(a), self.nodes.get(b)), (Some(Node::Var(x)), Some(Node::Var(y))) if x != y)
    }

    // The variables of a lawful action; none where its label or node is missing.
    pub(crate) fn action(&self, a: Action) -> Option<VarSet>
        ensures { Acted (content self.now) a result }
    {
        if !has(self.labels.as_slice(), a.label.0) {
            return None;
        }
        self.nodes.variables(a.node)
    }
}
