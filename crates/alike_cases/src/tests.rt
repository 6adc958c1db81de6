// Each row is two nodes, and whether they are the same.
use alike::alike;
use std::alloc::Global;
use std::process::Abort;
use std::test::Fail;
use terms::{EnvName, LocalName, Node, NodeFault, NodeNo, NodeTable, Variable};
use unification::Binding;

// Nodes by their numbers. Each crate of tests has its own: they share only `terms`, where no other caller needs these.
fn name(n: u16) -> Node {
    Node::Name(LocalName(n))
}

fn var(x: u16) -> Node {
    Node::Var(Variable(x))
}

fn pair(left: u16, right: u16) -> Node {
    Node::Pair {
        left: NodeNo(left),
        right: NodeNo(right),
    }
}

fn seal(body: u16, key: u16) -> Node {
    Node::Seal {
        body: NodeNo(body),
        key: NodeNo(key),
    }
}

fn binding(x: u16, n: u16) -> Binding {
    Binding {
        variable: Variable(x),
        node: NodeNo(n),
    }
}

fn table_of(heap: Global, nodes: &[Node]) -> Result<NodeTable, NodeFault> {
    let mut table = NodeTable::new(heap);
    for n in nodes {
        table.push(*n)?;
    }
    Ok(table)
}

#[derive(Clone, Copy)]
struct Row(u16, u16, bool);

fn rows(rt: &impl Abort, nodes: &NodeTable, bindings: &[Binding], rows: &[Row]) {
    let values = alike(nodes, bindings);
    for r in rows {
        assert_eq!(rt; values.same(NodeNo(r.0), NodeNo(r.1)), r.2);
        assert_eq!(rt; values.same(NodeNo(r.1), NodeNo(r.0)), r.2);
    }
}

#[test]
fn without_bindings(rt: HostRuntime) -> Result<(), Fail> {
    let env = Node::Env(EnvName(0));
    let table = table_of(
        rt.alloc(),
        &[
            name(0),
            name(0),
            name(1),
            env,
            var(0),
            var(0),
            var(1),
            pair(0, 2),
            pair(1, 2),
            pair(2, 0),
            seal(0, 2),
        ],
    )?;
    rows(
        &rt,
        &table,
        &[],
        &[
            Row(0, 1, true),
            Row(0, 2, false),
            Row(0, 3, false),
            Row(4, 5, true),
            Row(4, 6, false),
            Row(7, 8, true),
            Row(7, 9, false),
            Row(7, 10, false),
            Row(10, 10, true),
            Row(11, 11, false),
        ],
    );
    Ok(())
}

#[test]
fn values_through_bindings(rt: HostRuntime) -> Result<(), Fail> {
    // x is y, y is (n, z), and z stays unbound; one is bound to a node that stands after it
    let table = table_of(
        rt.alloc(),
        &[
            var(0),
            var(1),
            var(2),
            name(0),
            pair(3, 2),
            seal(0, 3),
            seal(4, 3),
            seal(4, 2),
        ],
    )?;
    rows(
        &rt,
        &table,
        &[binding(0, 1), binding(1, 4)],
        &[
            Row(0, 1, true),
            Row(0, 4, true),
            Row(0, 2, false),
            Row(5, 6, true),
            Row(5, 7, false),
        ],
    );
    Ok(())
}
