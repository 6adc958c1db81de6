// What moves: the refusals 32, 33, 34 and 37.
use crate::tests::script::Step::*;
use crate::tests::script::*;
use crate::tests::sheets::{SEALED_UNDER_FED, SECRET_TOLD};
use sheet_cases::Entry;
use sheet_cases::kind::{INPUT, NAME, NONE, OPEN, OUTPUT, PAIR, SAME, SEAL, SPLIT, VARIABLE};
use std::test::Fail;

#[test]
fn the_smallest_number_is_answered(rt: HostRuntime) -> Result<(), Fail> {
    let steps = [
        MoveRefused(2, 32),
        MoveRefused(65535, 32),
        MoveRefused(1, 34),
        Moves(0),
        MoveRefused(0, 33),
        Writes(env(0), 0),
        MoveRefused(1, 34),
        Feeds(1, 0),
        MoveRefused(1, 33),
        MoveRefused(2, 32),
        Acted(2),
    ];
    Tester::new(&rt).on_each(&SECRET_TOLD, &steps)
}

#[test]
fn a_strand_without_steps_is_finished(rt: HostRuntime) -> Result<(), Fail> {
    let steps = [
        MoveRefused(0, 33),
        FeedRefused(0, 0, 33),
        Writes(env(0), 0),
        FeedRefused(0, 0, 33),
        Feeds(1, 0),
    ];
    Tester::new(&rt).on_each(&SEALED_UNDER_FED, &steps)
}

// A seal goes out only under a name.
#[test]
fn what_is_no_message_is_not_sent(rt: HostRuntime) -> Result<(), Fail> {
    let t = Tester::new(&rt);
    let steps = [Writes(env(3), 0), Feeds(1, 0), Moves(1), Acted(2)];
    t.on_each(&SEALED_UNDER_FED, &steps)?;
    let steps = [
        Writes(env(3), 0),
        Writes(pair(0, 0), 1),
        Feeds(1, 1),
        MoveRefused(1, 37),
        // the strand still stands there
        MoveRefused(1, 37),
        FeedRefused(1, 0, 34),
        Writes(env(4), 2),
        Acted(1),
    ];
    t.on_each(&SEALED_UNDER_FED, &steps)?;
    let steps = [
        Writes(env(3), 0),
        Writes(seal(0, 0), 1),
        Feeds(1, 1),
        MoveRefused(1, 37),
        Acted(1),
    ];
    t.on_each(&SEALED_UNDER_FED, &steps)
}

// strand 0 takes x, opens {n}x under x and sends what was in it; strand 1 takes y and z, opens z under y and sends what was in
// it
const OPENED_UNDER_FED: [Entry; 26] = [
    Entry::Label(b"a"),
    Entry::Name(b"n"),
    Entry::Variable(b"x"),
    Entry::Variable(b"u"),
    Entry::Variable(b"y"),
    Entry::Variable(b"z"),
    Entry::Variable(b"v"),
    Entry::Node(NAME, 0, 0),
    Entry::Node(VARIABLE, 0, 0),
    Entry::Node(VARIABLE, 1, 0),
    Entry::Node(VARIABLE, 2, 0),
    Entry::Node(VARIABLE, 3, 0),
    Entry::Node(VARIABLE, 4, 0),
    Entry::Node(SEAL, 0, 1),
    Entry::Node(SEAL, 2, 1),
    Entry::Node(SEAL, 5, 3),
    Entry::Strand,
    Entry::Step(INPUT, 0, 0),
    Entry::Step(OPEN, 6, 7),
    Entry::Step(OUTPUT, 0, 2),
    Entry::Strand,
    Entry::Step(INPUT, 0, 2),
    Entry::Step(INPUT, 0, 3),
    Entry::Step(OPEN, 4, 8),
    Entry::Step(OUTPUT, 0, 5),
    Entry::Property([NONE, 0, 0, OUTPUT, 0, 0]),
];

// A term that is no message may still be looked into: no action says it.
#[test]
fn a_seal_under_a_pair_is_opened_under_that_pair(rt: HostRuntime) -> Result<(), Fail> {
    let steps = [
        Writes(env(3), 0),
        Writes(pair(0, 0), 1),
        Feeds(0, 1),
        Moves(0),
        Acted(1),
        Moves(0),
        Went(0, name(0)),
    ];
    Tester::new(&rt).on_each(&OPENED_UNDER_FED, &steps)
}

// What is fed is a message, so no pair opens it.
#[test]
fn a_fed_key_opens_its_own_seals(rt: HostRuntime) -> Result<(), Fail> {
    let t = Tester::new(&rt);
    let written = [
        Writes(env(3), 0),
        Writes(env(4), 1),
        Writes(pair(0, 0), 2),
        Writes(seal(1, 0), 3),
        // the key once more
        Writes(env(3), 4),
    ];
    let cases = [
        [Feeds(1, 4), Feeds(1, 3), Moves(1), Moves(1)],
        [
            Feeds(1, 1),
            Feeds(1, 3),
            MoveRefused(1, 37),
            FeedRefused(1, 0, 34),
        ],
        [
            Feeds(1, 2),
            Feeds(1, 3),
            MoveRefused(1, 37),
            FeedRefused(1, 0, 34),
        ],
        [
            Feeds(1, 0),
            Feeds(1, 1),
            MoveRefused(1, 37),
            FeedRefused(1, 0, 34),
        ],
        [
            Feeds(1, 0),
            Feeds(1, 2),
            MoveRefused(1, 37),
            FeedRefused(1, 0, 34),
        ],
    ];
    for calls in cases {
        let mut steps = written.to_vec(t.heap)?;
        steps.extend_from_slice(&calls)?;
        t.on_each(&OPENED_UNDER_FED, &steps)?;
    }
    Ok(())
}

// takes x and y, which are to be the same, and sends n
const COMPARED: [Entry; 13] = [
    Entry::Label(b"a"),
    Entry::Name(b"n"),
    Entry::Variable(b"x"),
    Entry::Variable(b"y"),
    Entry::Node(NAME, 0, 0),
    Entry::Node(VARIABLE, 0, 0),
    Entry::Node(VARIABLE, 1, 0),
    Entry::Strand,
    Entry::Step(INPUT, 0, 0),
    Entry::Step(INPUT, 0, 1),
    Entry::Step(SAME, 1, 2),
    Entry::Step(OUTPUT, 0, 0),
    Entry::Property([NONE, 0, 0, OUTPUT, 0, 0]),
];

#[test]
fn equal_terms_at_different_places_are_the_same(rt: HostRuntime) -> Result<(), Fail> {
    let t = Tester::new(&rt);
    let written = [
        Writes(env(0), 0),
        Writes(env(1), 1),
        Writes(pair(0, 1), 2),
        Writes(env(1), 3),
        Writes(env(0), 4),
        Writes(pair(4, 3), 5),
        Writes(pair(3, 4), 6),
        Writes(seal(0, 1), 7),
    ];
    let cases = [
        [Feeds(0, 2), Feeds(0, 5), Moves(0), Moves(0)],
        [Feeds(0, 0), Feeds(0, 4), Moves(0), Moves(0)],
        [Feeds(0, 2), Feeds(0, 6), MoveRefused(0, 37), Acted(2)],
        [Feeds(0, 0), Feeds(0, 1), MoveRefused(0, 37), Acted(2)],
        [Feeds(0, 2), Feeds(0, 7), MoveRefused(0, 37), Acted(2)],
    ];
    for calls in cases {
        let mut steps = written.to_vec(t.heap)?;
        steps.extend_from_slice(&calls)?;
        t.on_each(&COMPARED, &steps)?;
    }
    Ok(())
}

// names n and k: strand 0 sends {n}k, strand 1 opens what it takes under k; strand 2 splits what it takes, and sends the second
// half and then the first
const OPENED_AND_SPLIT: [Entry; 31] = [
    Entry::Label(b"a"),
    Entry::Label(b"b"),
    Entry::Name(b"n"),
    Entry::Name(b"k"),
    Entry::Variable(b"x"),
    Entry::Variable(b"u"),
    Entry::Variable(b"y"),
    Entry::Variable(b"v"),
    Entry::Variable(b"w"),
    Entry::Node(NAME, 0, 0),
    Entry::Node(NAME, 1, 0),
    Entry::Node(VARIABLE, 0, 0),
    Entry::Node(VARIABLE, 1, 0),
    Entry::Node(VARIABLE, 2, 0),
    Entry::Node(VARIABLE, 3, 0),
    Entry::Node(VARIABLE, 4, 0),
    Entry::Node(SEAL, 0, 1),
    Entry::Node(SEAL, 3, 1),
    Entry::Node(PAIR, 5, 6),
    Entry::Strand,
    Entry::Step(OUTPUT, 0, 7),
    Entry::Strand,
    Entry::Step(INPUT, 0, 0),
    Entry::Step(OPEN, 2, 8),
    Entry::Step(OUTPUT, 1, 3),
    Entry::Strand,
    Entry::Step(INPUT, 0, 2),
    Entry::Step(SPLIT, 4, 9),
    Entry::Step(OUTPUT, 1, 6),
    Entry::Step(OUTPUT, 1, 5),
    Entry::Property([NONE, 0, 0, OUTPUT, 1, 0]),
];

#[test]
fn a_seal_is_opened_with_its_key(rt: HostRuntime) -> Result<(), Fail> {
    let t = Tester::new(&rt);
    let steps = [
        Writes(name(0), 0),
        Writes(name(1), 1),
        Writes(seal(0, 1), 2),
        Moves(0),
        Feeds(1, 2),
        Moves(1),
        Acted(2),
        Moves(1),
        Went(1, name(0)),
    ];
    t.on_each(&OPENED_AND_SPLIT, &steps)?;
    let written = [
        Writes(env(0), 0),
        Writes(seal(0, 0), 1),
        Writes(pair(0, 0), 2),
    ];
    for place in 0..3u16 {
        let mut steps = written.to_vec(t.heap)?;
        let calls = [
            Feeds(1, place),
            MoveRefused(1, 37),
            Moves(0),
            MoveRefused(1, 37),
        ];
        steps.extend_from_slice(&calls)?;
        t.on_each(&OPENED_AND_SPLIT, &steps)?;
    }
    Ok(())
}

#[test]
fn a_pair_is_split(rt: HostRuntime) -> Result<(), Fail> {
    let t = Tester::new(&rt);
    let written = [
        Writes(env(0), 0),
        Writes(env(1), 1),
        Writes(pair(0, 1), 2),
        Writes(seal(2, 0), 3),
    ];
    let cases = [
        [
            Feeds(2, 2),
            Moves(2),
            Moves(2),
            Went(1, env(1)),
            Moves(2),
            Went(1, env(0)),
        ],
        [
            Feeds(2, 0),
            MoveRefused(2, 37),
            Acted(1),
            Moves(0),
            MoveRefused(2, 37),
            Acted(2),
        ],
        [
            Feeds(2, 3),
            MoveRefused(2, 37),
            Acted(1),
            Moves(0),
            MoveRefused(2, 37),
            Acted(2),
        ],
    ];
    for calls in cases {
        let mut steps = written.to_vec(t.heap)?;
        steps.extend_from_slice(&calls)?;
        t.on_each(&OPENED_AND_SPLIT, &steps)?;
    }
    Ok(())
}
