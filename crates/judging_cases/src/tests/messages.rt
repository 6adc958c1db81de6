// Only a run of messages is judged.
use crate::tests::support::{name, output, pages_of, pair, seal, sheet_of};
use judging::judge;
use playing::Verdict;
use sheet_cases::Entry;
use sheet_cases::kind::{NAME, NONE, OUTPUT};
use std::test::Fail;

const A: u16 = 0;

const N: u16 = 0;

// no n may go out
#[test]
fn every_action_has_a_message(rt: HostRuntime) -> Result<(), Fail> {
    let heap = rt.alloc();
    let sheet = sheet_of(
        heap,
        &[
            Entry::Label(b"a"),
            Entry::Name(b"n"),
            Entry::Node(NAME, 0, 0),
            Entry::Strand,
            Entry::Step(OUTPUT, A, 0),
            Entry::Property([NONE, 0, 0, OUTPUT, A, 0]),
        ],
    )?;
    // a pair is no key
    let pages = pages_of(heap, &[name(0), pair(0, 0), seal(0, 1), seal(1, 0)])?;
    assert_eq!(rt; judge(&sheet, &pages, &[]), Some(Verdict::Kept));
    assert_eq!(rt; judge(&sheet, &pages, &[output(A, 3)]), Some(Verdict::Kept));
    assert_eq!(rt; judge(&sheet, &pages, &[output(A, 2)]), None);
    assert_eq!(rt; judge(&sheet, &pages, &[output(A, N), output(A, 2)]), None);
    assert_eq!(rt; judge(&sheet, &pages, &[output(A, 4)]), None);
    Ok(())
}
