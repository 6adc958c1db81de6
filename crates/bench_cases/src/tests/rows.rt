// Rows of calls that are played, and how their runs are judged.
use crate::tests::script::*;
use crate::tests::sheets::{NOT_PASSED_ON, SECRET_TOLD};
use bench::{Bench, EndedRun};
use notebook::Notebook;
use notebooks::{AskingNotebook, KeepingNotebook};
use playback::play;
use playing::Call::*;
use playing::{Call, Verdict};
use sheet::Sheet;
use sheet_cases::Entry;
use sheet_cases::kind::{INPUT, OUTPUT, VARIABLE};
use std::process::Abort;
use std::test::Fail;
use terms::{LocalName, Node, NodeNo, StrandNo};

// More places than there can be.
const PLACES: u16 = 800;

fn play_all<N: Notebook + Drop>(
    t: &Tester<'_, impl Abort>,
    sheet: &Sheet,
    calls: &[Call],
) -> Result<EndedRun, Fail> {
    Ok(play(t.heap, sheet, N::new(t.heap)?, calls)?)
}

// The same actions, the same nodes at their places, and the same judgement.
fn expect_same(rt: &impl Abort, a: &EndedRun, b: &EndedRun) {
    assert!(rt; a.actions() == b.actions());
    assert_eq!(rt; a.judgement(), b.judgement());
    for i in 0..PLACES {
        assert_eq!(rt; a.node(NodeNo(i)), b.node(NodeNo(i)), "place {i}");
    }
}

// Both notebooks lead to the same run.
fn run_of(t: &Tester<'_, impl Abort>, sheet: &Sheet, calls: &[Call]) -> Result<EndedRun, Fail> {
    let run = play_all::<AskingNotebook>(t, sheet, calls)?;
    expect_same(t.rt, &run, &play_all::<KeepingNotebook>(t, sheet, calls)?);
    Ok(run)
}

// A sheet, calls, and how many actions their run has and how it is judged.
fn expect(
    t: &Tester<'_, impl Abort>,
    entries: &[Entry],
    calls: &[Call],
    count: usize,
    verdict: Verdict,
) -> Result<(), Fail> {
    let run = run_of(t, &sheet_of(t.heap, entries)?, calls)?;
    assert_eq!(t.rt; run.actions().len(), count);
    assert_eq!(t.rt; run.judgement(), verdict);
    Ok(())
}

const D_IS_TAKEN: [Call; 3] = [
    Write(Node::Name(LocalName(0))),
    Move(StrandNo(0)),
    Feed(StrandNo(1), NodeNo(0)),
];

#[test]
fn what_is_refused_changes_nothing(rt: HostRuntime) -> Result<(), Fail> {
    let t = Tester::new(&rt);
    let sheet = sheet_of(t.heap, &SECRET_TOLD)?;
    let calls = [
        Move(StrandNo(1)),
        Move(StrandNo(2)),
        Write(name(2)),
        Feed(StrandNo(1), NodeNo(0)),
        Write(name(0)),
        Write(var(0)),
        Feed(StrandNo(1), NodeNo(0)),
        Feed(StrandNo(0), NodeNo(0)),
        Write(pair(0, 1)),
        Move(StrandNo(0)),
        Move(StrandNo(0)),
        Feed(StrandNo(1), NodeNo(0)),
        Feed(StrandNo(1), NodeNo(0)),
    ];
    let run = run_of(&t, &sheet, &calls)?;
    expect_same(&rt, &run, &run_of(&t, &sheet, &D_IS_TAKEN)?);
    Ok(())
}

fn by_hand<N: Notebook + Drop>(
    t: &Tester<'_, impl Abort>,
    kind: &str,
    sheet: &Sheet,
) -> Result<EndedRun, Fail> {
    let mut bench = Bench::open(t.heap, sheet, N::new(t.heap)?)?;
    t.follow(
        kind,
        &mut bench,
        &[Step::Writes(name(0), 0), Step::Moves(0), Step::Feeds(1, 0)],
    )?;
    Ok(bench.end())
}

#[test]
fn a_row_leads_where_its_calls_do(rt: HostRuntime) -> Result<(), Fail> {
    let t = Tester::new(&rt);
    let sheet = sheet_of(t.heap, &SECRET_TOLD)?;
    let run = run_of(&t, &sheet, &D_IS_TAKEN)?;
    expect_same(&rt, &run, &by_hand::<AskingNotebook>(&t, "asking", &sheet)?);
    expect_same(
        &rt,
        &run,
        &by_hand::<KeepingNotebook>(&t, "keeping", &sheet)?,
    );
    Ok(())
}

#[test]
fn a_secret_is_told(rt: HostRuntime) -> Result<(), Fail> {
    let t = Tester::new(&rt);
    expect(&t, &SECRET_TOLD, &[], 0, Verdict::Kept)?;
    expect(&t, &SECRET_TOLD, &D_IS_TAKEN[..2], 1, Verdict::Kept)?;
    expect(&t, &SECRET_TOLD, &D_IS_TAKEN, 2, Verdict::Broken)?;
    // another name is taken
    let calls = [
        Write(env(0)),
        Move(StrandNo(0)),
        Feed(StrandNo(1), NodeNo(0)),
    ];
    expect(&t, &SECRET_TOLD, &calls, 2, Verdict::Kept)
}

#[test]
fn nothing_is_passed_on(rt: HostRuntime) -> Result<(), Fail> {
    let t = Tester::new(&rt);
    expect(&t, &NOT_PASSED_ON, &[], 0, Verdict::Kept)?;
    expect(&t, &NOT_PASSED_ON, &[Move(StrandNo(0))], 1, Verdict::Broken)
}

// takes x and y, and sends x on a and y on b; what goes out on b is to go out on a before
const TWO_PASSED_ON: [Entry; 15] = [
    Entry::Label(b"a"),
    Entry::Label(b"b"),
    Entry::Label(b"c"),
    Entry::Variable(b"v"),
    Entry::Variable(b"x"),
    Entry::Variable(b"y"),
    Entry::Node(VARIABLE, 0, 0),
    Entry::Node(VARIABLE, 1, 0),
    Entry::Node(VARIABLE, 2, 0),
    Entry::Strand,
    Entry::Step(INPUT, 2, 1),
    Entry::Step(INPUT, 2, 2),
    Entry::Step(OUTPUT, 0, 1),
    Entry::Step(OUTPUT, 1, 2),
    Entry::Property([OUTPUT, 0, 0, OUTPUT, 1, 0]),
];

#[test]
fn one_term_at_two_places_is_passed_on(rt: HostRuntime) -> Result<(), Fail> {
    let t = Tester::new(&rt);
    let written = [
        Write(env(0)),
        Write(env(1)),
        Write(seal(0, 1)),
        Write(env(1)),
        Write(seal(0, 3)),
    ];
    let cases = [
        (2, 4, Verdict::Kept),
        (1, 3, Verdict::Kept),
        (2, 0, Verdict::Broken),
        (0, 1, Verdict::Broken),
    ];
    for (x, y, verdict) in &cases {
        let mut calls = written.to_vec(t.heap)?;
        calls.push(Feed(StrandNo(0), NodeNo(*x)))?;
        calls.push(Feed(StrandNo(0), NodeNo(*y)))?;
        calls.push(Move(StrandNo(0)))?;
        calls.push(Move(StrandNo(0)))?;
        expect(&t, &TWO_PASSED_ON, &calls, 4, *verdict)?;
    }
    Ok(())
}
