// What is written: the refusals 30 and 31.
use crate::tests::script::Step::*;
use crate::tests::script::*;
use crate::tests::sheets::SECRET_TOLD;
use bench::Bench;
use notebook::Notebook;
use notebooks::{AskingNotebook, KeepingNotebook};
use sheet::Sheet;
use std::process::Abort;
use std::test::Fail;

#[test]
fn variables_and_names_that_there_are_not(rt: HostRuntime) -> Result<(), Fail> {
    let steps = [
        WriteRefused(var(0), 30),
        // the sheet has two names
        WriteRefused(name(2), 30),
        WriteRefused(name(65535), 30),
        WriteRefused(env(256), 30),
        Writes(name(1), 0),
        Writes(env(255), 1),
        WriteRefused(var(0), 30),
        Feeds(1, 1),
        Came(1, env(255)),
    ];
    Tester::new(&rt).on_each(&SECRET_TOLD, &steps)
}

#[test]
fn places_that_are_not_written(rt: HostRuntime) -> Result<(), Fail> {
    let steps = [
        // the sheet's own terms are not the caller's
        WriteRefused(pair(0, 0), 30),
        WriteRefused(seal(0, 0), 30),
        Writes(name(0), 0),
        WriteRefused(pair(0, 1), 30),
        WriteRefused(pair(1, 0), 30),
        WriteRefused(seal(0, 1), 30),
        WriteRefused(seal(1, 0), 30),
        WriteRefused(pair(0, 65535), 30),
        Writes(seal(0, 0), 1),
        Writes(pair(1, 0), 2),
    ];
    Tester::new(&rt).on_each(&SECRET_TOLD, &steps)
}

#[test]
fn keys_that_are_no_names(rt: HostRuntime) -> Result<(), Fail> {
    let steps = [
        Writes(name(0), 0),
        Writes(name(1), 1),
        Writes(pair(0, 1), 2),
        Writes(seal(0, 1), 3),
        WriteRefused(seal(0, 2), 30),
        WriteRefused(seal(0, 3), 30),
        // the body may be any message
        Writes(seal(2, 1), 4),
        Writes(seal(3, 0), 5),
        Writes(env(0), 6),
        Writes(seal(3, 6), 7),
    ];
    Tester::new(&rt).on_each(&SECRET_TOLD, &steps)
}

// Every place is written, and then the smaller number of the two is answered.
fn full<N: Notebook + Drop>(
    t: &Tester<'_, impl Abort>,
    kind: &str,
    sheet: &Sheet,
) -> Result<(), Fail> {
    let mut bench = Bench::open(t.heap, sheet, N::new(t.heap)?)?;
    for i in 0..512u16 {
        t.follow(kind, &mut bench, &[Writes(env(i % 256), i)])?;
    }
    t.follow(
        kind,
        &mut bench,
        &[
            WriteRefused(name(0), 31),
            WriteRefused(pair(511, 511), 31),
            WriteRefused(name(2), 30),
            WriteRefused(var(0), 30),
            WriteRefused(env(256), 30),
            WriteRefused(pair(512, 0), 30),
            FeedRefused(1, 512, 35),
            Feeds(1, 511),
            Came(1, env(255)),
        ],
    )
}

#[test]
fn all_places(rt: HostRuntime) -> Result<(), Fail> {
    let t = Tester::new(&rt);
    let sheet = sheet_of(t.heap, &SECRET_TOLD)?;
    full::<AskingNotebook>(&t, "asking", &sheet)?;
    full::<KeepingNotebook>(&t, "keeping", &sheet)
}
