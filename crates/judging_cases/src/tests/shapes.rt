// Terms of a sheet that are fitted to those of a run.
use crate::tests::support::{Case, expect, name, output, pages_of, pair, seal, sheet_of};
use playing::Verdict::{Broken, Kept};
use sheet_cases::Entry;
use sheet_cases::kind::{NAME, NONE, OUTPUT, PAIR, SEAL, VARIABLE};
use std::test::Fail;
use terms::Node;

const A: u16 = 0;

// no ({v}w, v) may go out
#[test]
fn a_variable_has_one_value(rt: HostRuntime) -> Result<(), Fail> {
    let heap = rt.alloc();
    let sheet = sheet_of(
        heap,
        &[
            Entry::Label(b"a"),
            Entry::Name(b"n"),
            Entry::Variable(b"v"),
            Entry::Variable(b"w"),
            Entry::Node(NAME, 0, 0),
            Entry::Node(VARIABLE, 0, 0),
            Entry::Node(VARIABLE, 1, 0),
            Entry::Node(SEAL, 1, 2),
            Entry::Node(PAIR, 3, 1),
            Entry::Strand,
            Entry::Step(OUTPUT, A, 0),
            Entry::Property([NONE, 0, 0, OUTPUT, A, 4]),
        ],
    )?;
    let pages = pages_of(
        heap,
        &[
            name(0),
            name(1),
            seal(0, 1),
            pair(2, 0),
            pair(2, 1),
            pair(0, 2),
            seal(2, 0),
        ],
    )?;
    let cases = [
        Case(&[output(A, 3)], Broken),
        Case(&[output(A, 4)], Kept),
        Case(&[output(A, 5)], Kept),
        Case(&[output(A, 6)], Kept),
        Case(&[output(A, 0)], Kept),
        Case(&[output(A, 4), output(A, 3)], Broken),
    ];
    expect(&rt, &sheet, &pages, &cases)
}

// Pairs of the pair before, twice: a tree with 2 ^ 253 leaves v, or names.
#[test]
fn no_tree_is_walked(rt: HostRuntime) -> Result<(), Fail> {
    let heap = rt.alloc();
    let mut entries = Vec::new(heap);
    entries.extend_from_slice(&[
        Entry::Label(b"a"),
        Entry::Name(b"n"),
        Entry::Variable(b"v"),
        Entry::Node(NAME, 0, 0),
        Entry::Node(VARIABLE, 0, 0),
    ])?;
    let mut nodes: Vec<Node> = Vec::new(heap);
    nodes.push(name(0))?;
    nodes.push(name(1))?;
    for i in 1..255 {
        entries.push(Entry::Node(PAIR, i, i))?;
        nodes.push(pair(i, i))?;
    }
    // one whose halves differ, and one that is a level deeper
    nodes.push(pair(254, 0))?;
    nodes.push(pair(255, 255))?;
    entries.push(Entry::Strand)?;
    entries.push(Entry::Step(OUTPUT, A, 0))?;
    entries.push(Entry::Property([NONE, 0, 0, OUTPUT, A, 255]))?;
    let sheet = sheet_of(heap, &entries)?;
    let pages = pages_of(heap, &nodes)?;
    let cases = [
        Case(&[output(A, 255)], Broken),
        Case(&[output(A, 254)], Kept),
        Case(&[output(A, 256)], Kept),
        Case(&[output(A, 257)], Broken),
        Case(&[output(A, 1)], Kept),
    ];
    expect(&rt, &sheet, &pages, &cases)
}
