// A sheet written out again as a file, from what its queries say.
use crate::entry::Entry;
use crate::file::SheetFile;
use crate::kind;
use protocol::{Action, Direction, Property, Step};
use sheet::Sheet;
use std::alloc::{AllocError, Global};
use terms::Node;

// The file that gives this sheet.
pub fn file_of(heap: Global, sheet: &Sheet) -> Result<SheetFile, AllocError> {
    let mut file = SheetFile::new(heap);
    for text in sheet.labels() {
        file.entry(Entry::Label(text.as_bytes()))?;
    }
    for text in sheet.names() {
        file.entry(Entry::Name(text.as_bytes()))?;
    }
    for text in sheet.variables() {
        file.entry(Entry::Variable(text.as_bytes()))?;
    }
    for node in sheet.nodes() {
        file.entry(Entry::from(*node))?;
    }
    for strand in sheet.strands() {
        file.entry(Entry::Strand)?;
        for step in strand.steps() {
            file.entry(Entry::from(*step))?;
        }
    }
    file.entry(Entry::from(sheet.property()))?;
    Ok(file)
}

impl From<Node> for Entry<'static> {
    fn from(node: Node) -> Entry<'static> {
        match node {
            Node::Name(n) => Entry::Node(kind::NAME, n.0, 0),
            Node::Var(x) => Entry::Node(kind::VARIABLE, x.0, 0),
            Node::Pair { left, right } => Entry::Node(kind::PAIR, left.0, right.0),
            Node::Seal { body, key } => Entry::Node(kind::SEAL, body.0, key.0),
            Node::Env(e) => Entry::Node(kind::ENV, e.0, 0),
        }
    }
}

impl From<Step> for Entry<'static> {
    fn from(step: Step) -> Entry<'static> {
        match step {
            Step::Input { label, variable } => Entry::Step(kind::INPUT, label.0, variable.0),
            Step::Output { label, node } => Entry::Step(kind::OUTPUT, label.0, node.0),
            Step::Open { subject, pattern } => Entry::Step(kind::OPEN, subject.0, pattern.0),
            Step::Split { subject, pattern } => Entry::Step(kind::SPLIT, subject.0, pattern.0),
            Step::Same { left, right } => Entry::Step(kind::SAME, left.0, right.0),
        }
    }
}

impl From<Property> for Entry<'static> {
    fn from(property: Property) -> Entry<'static> {
        let [p, q, r] = property.earlier.map_or([kind::NONE, 0, 0], fields);
        let [s, u, v] = fields(property.later);
        Entry::Property([p, q, r, s, u, v])
    }
}

fn fields(a: Action) -> [u16; 3] {
    let direction = match a.direction {
        Direction::Input => kind::INPUT,
        Direction::Output => kind::OUTPUT,
    };
    [direction, a.label.0, a.node.0]
}
