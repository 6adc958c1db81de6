// The two lists: what is put is read, clear empties both, refusals and questions change neither.
use crate::tests::script::Step::*;
use crate::tests::script::*;
use std::test::Fail;

#[test]
fn what_is_put_is_read(rt: HostRuntime) -> Result<(), Fail> {
    let steps = [
        Absent(0),
        Puts(name(9), 0),
        Puts(env(8), 1),
        Puts(pair(0, 1), 2),
        Puts(seal(2, 1), 3),
        Holds(0, name(9)),
        Holds(1, env(8)),
        Holds(2, pair(0, 1)),
        Holds(3, seal(2, 1)),
        Absent(4),
        Absent(65535),
    ];
    Tester::new(&rt).on_each(&steps)
}

#[test]
fn refusals_and_questions_change_nothing(rt: HostRuntime) -> Result<(), Fail> {
    let steps = [
        Puts(name(0), 0),
        PutRefused(var(0), 60),
        PutRefused(pair(0, 1), 60),
        NoteRefused(1, 62),
        No(0),
        No(1),
        Absent(1),
        Holds(0, name(0)),
        Puts(name(1), 1),
        No(0),
        Notes(1),
        Yes(1),
        No(0),
        No(2),
    ];
    Tester::new(&rt).on_each(&steps)
}

#[test]
fn clear_empties_both_lists(rt: HostRuntime) -> Result<(), Fail> {
    let steps = [
        Puts(name(0), 0),
        Puts(name(1), 1),
        Notes(0),
        Notes(1),
        Yes(1),
        Clears,
        Absent(0),
        No(0),
        NoteRefused(0, 62),
        Puts(name(1), 0),
        Puts(name(0), 1),
        No(0),
        No(1),
        Notes(1),
        No(0),
        Yes(1),
    ];
    Tester::new(&rt).on_each(&steps)
}
