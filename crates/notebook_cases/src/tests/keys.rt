// Keys: found one through another, in any order; and keys that are no names.
use crate::tests::script::Step::*;
use crate::tests::script::*;
use std::test::Fail;

// names a, j, k; then {a}j and {j}k, so that k opens j and j opens a
const A: u16 = 0;

const J: u16 = 1;

const K: u16 = 2;

const A_J: u16 = 3;

const J_K: u16 = 4;

#[test]
fn a_key_inside_another_seal_in_every_order(rt: HostRuntime) -> Result<(), Fail> {
    let orders = [
        [A_J, J_K, K],
        [A_J, K, J_K],
        [J_K, A_J, K],
        [J_K, K, A_J],
        [K, A_J, J_K],
        [K, J_K, A_J],
    ];
    let t = Tester::new(&rt);
    for [x, y, z] in orders {
        let steps = [
            Puts(name(0), A),
            Puts(name(1), J),
            Puts(name(2), K),
            Puts(seal(A, J), A_J),
            Puts(seal(J, K), J_K),
            Notes(x),
            Notes(y),
            No(A),
            Notes(z),
            Yes(A),
            Yes(J),
            Yes(K),
        ];
        t.on_each(&steps)?;
    }
    Ok(())
}

// A seal under a pair is neither opened nor made, whatever is known.
#[test]
fn a_key_that_is_a_pair(rt: HostRuntime) -> Result<(), Fail> {
    let steps = [
        Puts(name(0), 0),
        Puts(name(1), 1),
        Puts(pair(1, 1), 2),
        Puts(seal(0, 2), 3),
        Puts(seal(1, 2), 4),
        Puts(pair(3, 1), 5),
        Notes(3),
        Notes(1),
        Yes(2),
        Yes(3),
        No(0),
        No(4),
        Yes(5),
    ];
    Tester::new(&rt).on_each(&steps)
}

#[test]
fn a_key_that_is_a_seal(rt: HostRuntime) -> Result<(), Fail> {
    let steps = [
        Puts(name(0), 0),
        Puts(name(1), 1),
        Puts(seal(1, 1), 2),
        Puts(seal(0, 2), 3),
        Notes(3),
        Notes(2),
        Notes(1),
        Yes(2),
        No(0),
        Yes(3),
    ];
    Tester::new(&rt).on_each(&steps)
}
