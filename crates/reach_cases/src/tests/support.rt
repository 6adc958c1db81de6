// Tables, and what is expected to be reached.
use matching::Matching;
use reach::{Reach, reach};
use std::alloc::Global;
use std::process::Abort;
use std::test::Fail;
use terms::{LocalName, Node, NodeFault, NodeNo, NodeTable, Variable};

// Nodes by their numbers. Each crate of tests has its own: they share only `terms`, where no other caller needs these.
pub(crate) fn name(n: u16) -> Node {
    Node::Name(LocalName(n))
}

pub(crate) fn var(x: u16) -> Node {
    Node::Var(Variable(x))
}

pub(crate) fn pair(left: u16, right: u16) -> Node {
    Node::Pair {
        left: NodeNo(left),
        right: NodeNo(right),
    }
}

pub(crate) fn seal(body: u16, key: u16) -> Node {
    Node::Seal {
        body: NodeNo(body),
        key: NodeNo(key),
    }
}

pub(crate) fn table_of(heap: Global, nodes: &[Node]) -> Result<NodeTable, NodeFault> {
    let mut table = NodeTable::new(heap);
    for n in nodes {
        table.push(*n)?;
    }
    Ok(table)
}

// What is reached: names, nodes that are seals, variables.
#[derive(Clone, Copy)]
pub(crate) struct Parts<'a> {
    pub(crate) names: &'a [u16],
    pub(crate) seals: &'a [u16],
    pub(crate) variables: &'a [u16],
}

fn same(rt: &impl Abort, found: &Reach, parts: Parts) -> Result<(), Fail> {
    let variables = found.variables();
    for i in 0..64u16 {
        assert_eq!(rt;
            found.has_name(LocalName(i)),
            parts.names.contains(&i),
            "name {i}"
        );
        assert_eq!(rt;
            found.has_seal(NodeNo(i)),
            parts.seals.contains(&i),
            "node {i}"
        );
        assert_eq!(rt;
            variables.contains(Variable(i)),
            parts.variables.contains(&i),
            "variable {i}"
        );
    }
    Ok(())
}

// The heads come apart into these parts, once these pairs of nodes are matched.
pub(crate) fn expect(
    rt: &impl Abort,
    heap: Global,
    nodes: &[Node],
    pairs: &[(u16, u16)],
    heads: &[NodeNo],
    parts: Parts,
) -> Result<(), Fail> {
    let table = table_of(heap, nodes)?;
    let mut m = Matching::over(heap, table_of(heap, nodes)?)?;
    for (a, b) in pairs {
        assert!(rt; m.matches(NodeNo(*a), NodeNo(*b))?);
    }
    let found = reach(&table, m.bindings(), heads);
    assert!(rt; found.is_some());
    if let Some(found) = found {
        same(rt, &found, parts)?;
    }
    Ok(())
}
