// Refusal 4: a text, which has 1 to 16 bytes from 33 to 126.
use crate::entry::Entry;
use crate::entry::Entry::*;
use crate::file::SheetFile;
use crate::kind::*;
use crate::reply::reply_to;
use crate::tests::support::*;
use std::process::Abort;
use std::test::Fail;

const BAD: [&'static [u8]; 12] = [
    b"",
    b"seventeen-letters",
    // byte 32, alone, at the front, inside and as the last of 16
    b" ",
    b" a",
    b"a b",
    b"sixteen-letters ",
    // bytes 127, 0, 10, 128 and 255
    b"\x7f",
    b"a\x7f",
    b"\x00",
    b"a\n",
    b"\x80",
    b"\xff",
];

// A label, a name and a variable with this text are each refused.
fn expect_bad<R: Abort>(t: &Tester<'_, R>, text: &[u8], i: usize) -> Result<(), Fail> {
    for e in [Label(text), Name(text), Variable(text)] {
        let mut file = SheetFile::new(t.heap);
        file.entry(e)?;
        let reply = reply_to(t.heap, file.as_bytes())?;
        assert_eq!(t.rt; reply, Err(refused!(4, 0)), "text {i}, {e:?}");
    }
    Ok(())
}

#[test]
fn bad_texts(rt: HostRuntime) -> Result<(), Fail> {
    let t = Tester::new(&rt);
    for (i, text) in BAD.iter().enumerate() {
        expect_bad(&t, *text, i)?;
    }
    Ok(())
}

// the smallest and the largest byte, and the longest text
const GOOD: [&'static [u8]; 5] = [b"!", b"~", b"a", b"sixteen-letters!", b"{~!#0Az|`}"];

const REST: [Entry<'static>; 3] = [
    Node(NAME, 1, 0),
    Strand,
    Property([NONE, 0, 0, OUTPUT, 1, 0]),
];

// Two labels, two names and two variables may all have this text.
fn expect_good<R: Abort>(t: &Tester<'_, R>, text: &[u8], i: usize) -> Result<(), Fail> {
    let mut file = SheetFile::new(t.heap);
    for e in [Label(text), Name(text), Variable(text)] {
        file.repeat(e, 2)?;
    }
    file.entries(&REST)?;
    t.expect_whole(&file, i)
}

#[test]
fn good_texts(rt: HostRuntime) -> Result<(), Fail> {
    let t = Tester::new(&rt);
    for (i, text) in GOOD.iter().enumerate() {
        expect_good(&t, *text, i)?;
    }
    Ok(())
}
