// Equal trees at different places are one term, and no tree is walked.
use crate::tests::script::Step::*;
use crate::tests::script::*;
use notebook::Notebook;
use notebooks::{AskingNotebook, KeepingNotebook};
use std::process::Abort;
use std::test::Fail;

#[test]
fn one_term_at_two_places(rt: HostRuntime) -> Result<(), Fail> {
    let steps = [
        Puts(name(0), 0),
        Puts(name(1), 1),
        Puts(seal(0, 1), 2),
        Puts(name(1), 3),
        Puts(name(0), 4),
        Puts(seal(4, 3), 5),
        Puts(seal(3, 4), 6),
        Notes(5),
        Yes(2),
        No(6),
        No(0),
        // the key is given at another place than the seal refers to
        Notes(1),
        Yes(0),
        Yes(4),
        Yes(6),
        // and a place that comes later
        Puts(pair(4, 3), 7),
        Puts(pair(0, 1), 8),
        Yes(7),
        Yes(8),
    ];
    Tester::new(&rt).on_each(&steps)
}

#[test]
fn a_local_name_is_no_name_of_the_environment(rt: HostRuntime) -> Result<(), Fail> {
    let steps = [
        Puts(name(5), 0),
        Puts(env(5), 1),
        Puts(seal(0, 0), 2),
        Puts(seal(1, 0), 3),
        Notes(2),
        No(0),
        No(3),
        Yes(1),
    ];
    Tester::new(&rt).on_each(&steps)
}

// Each place is the pair of the one before with itself: the last term has 2^767 leaves.
fn tower<N: Notebook + Drop>(t: &Tester<'_, impl Abort>) -> Result<(), Fail> {
    let mut book = N::new(t.heap)?;
    t.follow(
        "notebook",
        &mut book,
        &[Puts(name(0), 0), Puts(pair(0, 0), 1)],
    )?;
    for i in 1..767u16 {
        t.follow("notebook", &mut book, &[Puts(pair(i, i), i + 1)])?;
    }
    t.follow(
        "notebook",
        &mut book,
        &[No(767), Notes(1), Yes(0), Yes(767), Notes(767), Yes(400)],
    )
}

#[test]
fn a_tower_of_pairs(rt: HostRuntime) -> Result<(), Fail> {
    let t = Tester::new(&rt);
    tower::<AskingNotebook>(&t)?;
    tower::<KeepingNotebook>(&t)
}
