// What is fed: the refusals 32 to 36, and what can be told only after something went out.
use crate::tests::script::Step::*;
use crate::tests::script::*;
use crate::tests::sheets::SECRET_TOLD;
use bench::Bench;
use notebook::Notebook;
use notebooks::{AskingNotebook, KeepingNotebook};
use sheet_cases::Entry;
use sheet_cases::kind::{INPUT, NAME, NONE, OUTPUT, SEAL};
use std::process::Abort;
use std::test::Fail;
use terms::NodeNo;

#[test]
fn the_smallest_number_is_answered(rt: HostRuntime) -> Result<(), Fail> {
    let steps = [
        // each at a place that is not written
        FeedRefused(2, 0, 32),
        FeedRefused(65535, 0, 32),
        FeedRefused(0, 0, 34),
        FeedRefused(1, 0, 35),
        FeedRefused(1, 65535, 35),
        // d is not known yet
        Writes(name(0), 0),
        FeedRefused(2, 0, 32),
        FeedRefused(0, 0, 34),
        FeedRefused(1, 0, 36),
        FeedRefused(1, 1, 35),
        Moves(0),
        FeedRefused(0, 0, 33),
        FeedRefused(0, 1, 33),
        FeedRefused(1, 1, 35),
        Feeds(1, 0),
        Came(1, name(0)),
        FeedRefused(1, 0, 33),
        FeedRefused(1, 1, 33),
        Acted(2),
        Writes(env(0), 1),
    ];
    Tester::new(&rt).on_each(&SECRET_TOLD, &steps)
}

// names d and k: strand 0 sends {d}k and then k; strands 1 and 2 take x and y
const KEY_LATER: [Entry; 17] = [
    Entry::Label(b"n"),
    Entry::Label(b"g"),
    Entry::Name(b"d"),
    Entry::Name(b"k"),
    Entry::Variable(b"x"),
    Entry::Variable(b"y"),
    Entry::Node(NAME, 0, 0),
    Entry::Node(NAME, 1, 0),
    Entry::Node(SEAL, 0, 1),
    Entry::Strand,
    Entry::Step(OUTPUT, 0, 2),
    Entry::Step(OUTPUT, 0, 1),
    Entry::Strand,
    Entry::Step(INPUT, 1, 0),
    Entry::Strand,
    Entry::Step(INPUT, 1, 1),
    Entry::Property([NONE, 0, 0, INPUT, 1, 0]),
];

#[test]
fn a_key_that_is_sent_opens_what_was_sent_before(rt: HostRuntime) -> Result<(), Fail> {
    let steps = [
        Writes(name(0), 0),
        Writes(name(1), 1),
        Writes(seal(0, 1), 2),
        FeedRefused(1, 2, 36),
        Moves(0),
        FeedRefused(1, 0, 36),
        FeedRefused(1, 1, 36),
        Feeds(1, 2),
        FeedRefused(2, 0, 36),
        Moves(0),
        Went(0, name(1)),
        Feeds(2, 0),
        Came(1, name(0)),
        Acted(4),
    ];
    Tester::new(&rt).on_each(&KEY_LATER, &steps)
}

// Names of the environment are its own from the start, and so is what is made of them.
#[test]
fn the_environment_speaks_first(rt: HostRuntime) -> Result<(), Fail> {
    let steps = [
        Writes(name(1), 0),
        Writes(env(7), 1),
        Writes(seal(1, 0), 2),
        Writes(env(0), 3),
        Writes(seal(1, 3), 4),
        Writes(pair(4, 1), 5),
        Writes(pair(5, 2), 6),
        // under a key that is not known, and a pair with that
        FeedRefused(1, 2, 36),
        FeedRefused(1, 6, 36),
        Feeds(1, 5),
        Feeds(2, 1),
        Came(1, env(7)),
    ];
    Tester::new(&rt).on_each(&KEY_LATER, &steps)
}

// d and k are noted, and then a bench is opened over that notebook.
fn cleared<N: Notebook + Drop>(t: &Tester<'_, impl Abort>, kind: &str) -> Result<(), Fail> {
    let mut book = N::new(t.heap)?;
    for i in 0..2u16 {
        assert_eq!(t.rt; book.put(name(i)), Ok(NodeNo(i)));
        assert_eq!(t.rt; book.note(NodeNo(i)), Ok(()));
    }
    let sheet = sheet_of(t.heap, &SECRET_TOLD)?;
    let mut bench = Bench::open(t.heap, &sheet, book)?;
    let steps = [
        Acted(0),
        FeedRefused(1, 0, 35),
        Writes(name(0), 0),
        FeedRefused(1, 0, 36),
        Moves(0),
        Feeds(1, 0),
    ];
    t.follow(kind, &mut bench, &steps)
}

#[test]
fn the_notebook_is_cleared(rt: HostRuntime) -> Result<(), Fail> {
    let t = Tester::new(&rt);
    cleared::<AskingNotebook>(&t, "asking")?;
    cleared::<KeepingNotebook>(&t, "keeping")
}
