// The table of pages under every notebook: what is put, which places hold one term, which terms are names and messages.
use crate::tests::script::*;
use notebook::PutFault;
use pages::{Page, PageTable};
use std::process::Abort;
use std::test::Fail;
use terms::{Node, NodeNo};

// A table of these nodes, each of which is taken.
fn filled(t: &Tester<'_, impl Abort>, nodes: &[Node]) -> Result<PageTable, Fail> {
    let mut table = PageTable::new(t.heap)?;
    for (i, node) in nodes.iter().enumerate() {
        assert!(t.rt; table.put(*node).is_ok(), "node {i}");
    }
    Ok(table)
}

fn page(node: Node, first: u16) -> Option<Page> {
    let first = NodeNo(first);
    Some(Page { node, first })
}

#[test]
fn what_is_put_has_a_page(rt: HostRuntime) -> Result<(), Fail> {
    let t = Tester::new(&rt);
    let mut table = filled(
        &t,
        &[name(9), env(9), pair(0, 1), name(9), seal(2, 3), pair(3, 1)],
    )?;
    assert!(rt; table.len() == 6);
    assert_eq!(rt; table.get(NodeNo(1)), page(env(9), 1));
    assert_eq!(rt; table.get(NodeNo(3)), page(name(9), 0));
    assert_eq!(rt; table.get(NodeNo(4)), page(seal(2, 3), 4));
    assert_eq!(rt; table.get(NodeNo(5)), page(pair(3, 1), 2));
    assert_eq!(rt; table.put(var(0)).map_err(PutFault::number), Err(60));
    assert_eq!(rt; table.put(pair(0, 6)).map_err(PutFault::number), Err(60));
    assert!(rt; table.len() == 6);
    table.clear();
    assert!(rt; table.len() == 0);
    assert_eq!(rt; table.get(NodeNo(0)), None);
    assert_eq!(rt; table.put(env(9)), Ok(NodeNo(0)));
    assert_eq!(rt; table.get(NodeNo(0)), page(env(9), 0));
    Ok(())
}

#[test]
fn nothing_is_past_the_end(rt: HostRuntime) -> Result<(), Fail> {
    let t = Tester::new(&rt);
    let table = filled(&t, &[name(0), name(0)])?;
    assert!(rt; table.holds(NodeNo(1)));
    for i in [2, 768, 65535] {
        let place = NodeNo(i);
        assert!(rt; !table.holds(place), "place {i}");
        assert_eq!(rt; table.get(place), None);
        assert!(rt; !table.same(place, place), "place {i}");
        assert!(rt; !table.same(NodeNo(0), place), "place {i}");
        assert!(rt; !table.same(place, NodeNo(0)), "place {i}");
        assert!(rt; !table.is_name(place), "place {i}");
        assert!(rt; !table.is_message(place), "place {i}");
    }
    Ok(())
}

#[test]
fn one_term_has_one_first_place(rt: HostRuntime) -> Result<(), Fail> {
    let t = Tester::new(&rt);
    let nodes = [
        name(0),
        name(1),
        seal(0, 1),
        name(1),
        name(0),
        seal(4, 3),
        seal(3, 4),
        pair(4, 3),
        pair(2, 2),
        pair(5, 2),
        env(0),
    ];
    let table = filled(&t, &nodes)?;
    for (a, b) in [(0, 4), (4, 0), (3, 1), (2, 5), (8, 9), (6, 6)] {
        assert!(rt; table.same(NodeNo(a), NodeNo(b)), "places {a}, {b}");
    }
    for (a, b) in [(0, 1), (5, 6), (5, 7), (0, 10), (7, 8)] {
        assert!(rt; !table.same(NodeNo(a), NodeNo(b)), "places {a}, {b}");
    }
    Ok(())
}

#[test]
fn names_are_local_or_of_the_environment(rt: HostRuntime) -> Result<(), Fail> {
    let t = Tester::new(&rt);
    let table = filled(&t, &[name(63), env(255), pair(0, 1), seal(0, 1)])?;
    assert!(rt; table.is_name(NodeNo(0)));
    assert!(rt; table.is_name(NodeNo(1)));
    assert!(rt; !table.is_name(NodeNo(2)));
    assert!(rt; !table.is_name(NodeNo(3)));
    Ok(())
}

#[test]
fn each_key_of_a_message_is_a_name(rt: HostRuntime) -> Result<(), Fail> {
    let t = Tester::new(&rt);
    let cases = [
        (name(0), true),
        (env(1), true),
        (pair(0, 1), true),
        (seal(2, 0), true),
        (seal(3, 1), true),
        // keys that are a pair and a seal
        (seal(0, 2), false),
        (seal(0, 3), false),
        // such a seal in a half, in a body, and in a key
        (pair(0, 5), false),
        (pair(6, 4), false),
        (seal(5, 0), false),
        (pair(7, 9), false),
        (seal(0, 5), false),
        // a key that is not at the first place of its name
        (name(0), true),
        (seal(4, 12), true),
        (pair(13, 13), true),
    ];
    let mut table = PageTable::new(t.heap)?;
    for (i, (node, message)) in cases.iter().enumerate() {
        let place = NodeNo(i as u16);
        assert_eq!(rt; table.put(*node), Ok(place));
        assert!(rt; table.is_message(place) == *message, "place {i}");
    }
    Ok(())
}

// Each place is the pair of the one before with itself: the last term has 2^767 leaves.
#[test]
fn a_full_table_of_pairs(rt: HostRuntime) -> Result<(), Fail> {
    let t = Tester::new(&rt);
    let mut table = filled(&t, &[name(0)])?;
    for i in 0..767u16 {
        assert_eq!(rt; table.put(pair(i, i)), Ok(NodeNo(i + 1)));
    }
    assert!(rt; table.len() == 768);
    assert_eq!(rt; table.put(name(0)).map_err(PutFault::number), Err(61));
    assert_eq!(rt; table.put(name(64)).map_err(PutFault::number), Err(60));
    assert!(rt; table.is_message(NodeNo(767)));
    assert!(rt; !table.same(NodeNo(766), NodeNo(767)));
    Ok(())
}
