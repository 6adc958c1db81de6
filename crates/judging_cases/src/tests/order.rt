// Which action comes first, on which label and in which direction.
use crate::tests::support::{Case, expect, input, name, output, pages_of, sheet_of};
use playing::Verdict::{Broken, Kept};
use sheet_cases::Entry;
use sheet_cases::kind::{NAME, NONE, OUTPUT, VARIABLE};
use std::test::Fail;

const A: u16 = 0;

const B: u16 = 1;

// n goes out on b; no v goes out on b unless it went out on a before
const PASSED_ON: [Entry; 8] = [
    Entry::Label(b"a"),
    Entry::Label(b"b"),
    Entry::Name(b"n"),
    Entry::Variable(b"v"),
    Entry::Node(NAME, 0, 0),
    Entry::Node(VARIABLE, 0, 0),
    Entry::Strand,
    Entry::Step(OUTPUT, B, 0),
];

const N: u16 = 0;

const M: u16 = 1;

#[test]
fn the_earlier_action_comes_before(rt: HostRuntime) -> Result<(), Fail> {
    let heap = rt.alloc();
    let mut entries = Vec::new(heap);
    entries.extend_from_slice(&PASSED_ON)?;
    entries.push(Entry::Property([OUTPUT, A, 1, OUTPUT, B, 1]))?;
    let sheet = sheet_of(heap, &entries)?;
    // the name n a second time
    let pages = pages_of(heap, &[name(0), name(1), name(0)])?;
    let cases = [
        Case(&[], Kept),
        Case(&[output(B, N)], Broken),
        Case(&[output(A, N), output(B, N)], Kept),
        Case(&[output(A, N), output(B, 2)], Kept),
        Case(&[output(B, N), output(A, N)], Broken),
        Case(&[output(A, M), output(B, N)], Broken),
        Case(&[input(A, N), output(B, N)], Broken),
        Case(&[output(A, N), output(B, N), output(B, M)], Broken),
        Case(&[input(B, N)], Kept),
    ];
    expect(&rt, &sheet, &pages, &cases)
}

#[test]
fn with_no_earlier_action_the_later_one_breaks(rt: HostRuntime) -> Result<(), Fail> {
    let heap = rt.alloc();
    let mut entries = Vec::new(heap);
    entries.extend_from_slice(&PASSED_ON)?;
    entries.push(Entry::Property([NONE, 0, 0, OUTPUT, B, 0]))?;
    let sheet = sheet_of(heap, &entries)?;
    let pages = pages_of(heap, &[name(0), name(1)])?;
    let cases = [
        Case(&[output(A, N), output(B, M)], Kept),
        Case(&[output(A, N), output(B, N)], Broken),
    ];
    expect(&rt, &sheet, &pages, &cases)
}
