// The largest sheets and runs.
use crate::tests::script::Step::*;
use crate::tests::script::*;
use crate::tests::sheets::{all_inputs, all_outputs};
use bench::Bench;
use notebook::Notebook;
use notebooks::{AskingNotebook, KeepingNotebook};
use sheet::Sheet;
use std::process::Abort;
use std::test::Fail;

// 256 terms of the sheet and 512 of the caller fill the notebook, and 128 outputs its notes.
fn filled<N: Notebook + Drop>(
    t: &Tester<'_, impl Abort>,
    kind: &str,
    sheet: &Sheet,
) -> Result<(), Fail> {
    let mut bench = Bench::open(t.heap, sheet, N::new(t.heap)?)?;
    t.follow(kind, &mut bench, &[Writes(name(0), 0)])?;
    for i in 0..511u16 {
        t.follow(kind, &mut bench, &[Writes(pair(i, i), i + 1)])?;
    }
    for _ in 0..16u16 {
        for strand in 0..8u16 {
            t.follow(kind, &mut bench, &[Moves(strand)])?;
        }
    }
    for strand in 0..8u16 {
        t.follow(kind, &mut bench, &[MoveRefused(strand, 33)])?;
    }
    t.follow(kind, &mut bench, &[Acted(128), WriteRefused(name(0), 31)])
}

#[test]
fn all_actions_and_all_places(rt: HostRuntime) -> Result<(), Fail> {
    let t = Tester::new(&rt);
    let sheet = all_outputs(t.heap)?;
    filled::<AskingNotebook>(&t, "asking", &sheet)?;
    filled::<KeepingNotebook>(&t, "keeping", &sheet)
}

fn fed<N: Notebook + Drop>(
    t: &Tester<'_, impl Abort>,
    kind: &str,
    sheet: &Sheet,
) -> Result<(), Fail> {
    let mut bench = Bench::open(t.heap, sheet, N::new(t.heap)?)?;
    for i in 0..16u16 {
        t.follow(kind, &mut bench, &[Writes(env(i), i)])?;
        for strand in 0..4u16 {
            t.follow(kind, &mut bench, &[Feeds(strand, i), Came(0, env(i))])?;
        }
    }
    for strand in 0..4u16 {
        t.follow(kind, &mut bench, &[FeedRefused(strand, 0, 33)])?;
    }
    t.follow(kind, &mut bench, &[Acted(64), FeedRefused(4, 0, 32)])
}

#[test]
fn all_variables(rt: HostRuntime) -> Result<(), Fail> {
    let t = Tester::new(&rt);
    let sheet = all_inputs(t.heap)?;
    fed::<AskingNotebook>(&t, "asking", &sheet)?;
    fed::<KeepingNotebook>(&t, "keeping", &sheet)
}
