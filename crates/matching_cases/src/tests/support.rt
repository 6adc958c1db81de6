// Tables, and what is expected of a match.
use matching::{Binding, Matching};
use std::alloc::Global;
use std::process::Abort;
use std::test::Fail;
use terms::{LocalName, Node, NodeFault, NodeNo, NodeTable, Variable};
use unification::Ask;

// Nodes by their numbers. Each crate of tests has its own: they share only `terms`, where no other caller needs these.
pub(crate) fn name(n: u16) -> Node {
    Node::Name(LocalName(n))
}

pub(crate) fn var(x: u16) -> Node {
    Node::Var(Variable(x))
}

pub(crate) fn pair(left: u16, right: u16) -> Node {
    Node::Pair {
        left: NodeNo(left),
        right: NodeNo(right),
    }
}

pub(crate) fn seal(body: u16, key: u16) -> Node {
    Node::Seal {
        body: NodeNo(body),
        key: NodeNo(key),
    }
}

pub(crate) fn binding(x: u16, n: u16) -> Binding {
    Binding {
        variable: Variable(x),
        node: NodeNo(n),
    }
}

pub(crate) fn ask(left: u16, right: u16) -> Ask {
    Ask {
        left: NodeNo(left),
        right: NodeNo(right),
    }
}

pub(crate) fn table_of(heap: Global, nodes: &[Node]) -> Result<NodeTable, NodeFault> {
    let mut table = NodeTable::new(heap);
    for n in nodes {
        table.push(*n)?;
    }
    Ok(table)
}

// A matching of these nodes.
pub(crate) fn opened(heap: Global, nodes: &[Node]) -> Result<Matching, Fail> {
    Ok(Matching::over(heap, table_of(heap, nodes)?)?)
}

// a, b, the answer to their match, and how many bindings there are then
#[derive(Clone, Copy)]
pub(crate) struct Row(pub u16, pub u16, pub bool, pub usize);

// These matches one after another.
pub(crate) fn rows(rt: &impl Abort, m: &mut Matching, rows: &[Row]) -> Result<(), Fail> {
    for r in rows {
        assert_eq!(rt; m.matches(NodeNo(r.0), NodeNo(r.1))?, r.2);
        assert_eq!(rt; m.bindings().len(), r.3);
    }
    Ok(())
}
