// Each limit at its edge, and that the smaller number is answered where two apply.
use crate::tests::script::Step::*;
use crate::tests::script::*;
use notebook::Notebook;
use notebooks::{AskingNotebook, KeepingNotebook};
use std::process::Abort;
use std::test::Fail;

#[test]
fn lawful_nodes_at_the_edge(rt: HostRuntime) -> Result<(), Fail> {
    let steps = [
        PutRefused(pair(0, 0), 60),
        PutRefused(var(0), 60),
        PutRefused(name(64), 60),
        PutRefused(env(256), 60),
        Puts(name(63), 0),
        Puts(env(255), 1),
        PutRefused(pair(2, 0), 60),
        PutRefused(pair(0, 2), 60),
        PutRefused(seal(2, 0), 60),
        PutRefused(seal(0, 2), 60),
        Puts(pair(1, 1), 2),
        Puts(seal(2, 2), 3),
        PutRefused(pair(0, 65535), 60),
    ];
    Tester::new(&rt).on_each(&steps)
}

fn full<N: Notebook + Drop>(t: &Tester<'_, impl Abort>) -> Result<(), Fail> {
    let mut book = N::new(t.heap)?;
    for i in 0..768u16 {
        t.follow("notebook", &mut book, &[Puts(name(i % 64), i)])?;
    }
    t.follow(
        "notebook",
        &mut book,
        &[
            PutRefused(name(0), 61),
            PutRefused(pair(767, 767), 61),
            PutRefused(name(64), 60),
            PutRefused(pair(768, 0), 60),
            Holds(767, name(63)),
            Absent(768),
            NoteRefused(768, 62),
        ],
    )?;
    for _ in 0..128u16 {
        t.follow("notebook", &mut book, &[No(0), Notes(767)])?;
    }
    t.follow(
        "notebook",
        &mut book,
        &[
            NoteRefused(0, 63),
            NoteRefused(768, 62),
            Yes(767),
            Yes(63),
            No(0),
        ],
    )
}

#[test]
fn all_places_and_all_notes(rt: HostRuntime) -> Result<(), Fail> {
    let t = Tester::new(&rt);
    full::<AskingNotebook>(&t)?;
    full::<KeepingNotebook>(&t)
}
