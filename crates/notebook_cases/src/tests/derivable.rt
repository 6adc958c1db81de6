// What the environment can put together and take apart.
use crate::tests::script::Step::*;
use crate::tests::script::*;
use std::test::Fail;

// names d and k, then {d}k and the pair of it with itself
const D: u16 = 0;

const K: u16 = 1;

const D_K: u16 = 2;

const TWICE: u16 = 3;

#[test]
fn a_seal_opens_once_its_key_is_given(rt: HostRuntime) -> Result<(), Fail> {
    let steps = [
        Puts(name(0), D),
        Puts(name(1), K),
        Puts(seal(D, K), D_K),
        Puts(pair(D_K, D_K), TWICE),
        Notes(D_K),
        No(D),
        No(K),
        Yes(D_K),
        Yes(TWICE),
        Notes(K),
        Yes(D),
        Yes(K),
    ];
    Tester::new(&rt).on_each(&steps)
}

#[test]
fn halves_of_a_pair_and_their_pairs(rt: HostRuntime) -> Result<(), Fail> {
    let steps = [
        Puts(name(0), 0),
        Puts(name(1), 1),
        Puts(name(2), 2),
        Puts(pair(0, 1), 3),
        Puts(pair(1, 0), 4),
        Puts(pair(1, 2), 5),
        Notes(3),
        Yes(0),
        Yes(1),
        No(2),
        Yes(4),
        No(5),
    ];
    Tester::new(&rt).on_each(&steps)
}

#[test]
fn nothing_local_is_derived_from_nothing(rt: HostRuntime) -> Result<(), Fail> {
    let steps = [
        Puts(name(0), 0),
        Puts(env(0), 1),
        Puts(seal(1, 0), 2),
        Puts(seal(0, 1), 3),
        Puts(pair(1, 1), 4),
        No(0),
        Yes(1),
        No(2),
        No(3),
        Yes(4),
        No(5),
    ];
    Tester::new(&rt).on_each(&steps)
}

// A name of the environment opens and seals without being noted.
#[test]
fn names_of_the_environment_are_known(rt: HostRuntime) -> Result<(), Fail> {
    let steps = [
        Puts(env(255), 0),
        Puts(name(0), 1),
        Puts(seal(1, 0), 2),
        Puts(env(7), 3),
        Puts(seal(1, 3), 4),
        Notes(2),
        Yes(0),
        Yes(1),
        Yes(4),
    ];
    Tester::new(&rt).on_each(&steps)
}
