// Refusal 1: the bytes that are left make no whole record.
use crate::entry::Entry;
use crate::entry::Entry::*;
use crate::file::SheetFile;
use crate::reply::{Reply, reply_to};
use crate::tests::base::Place;
use crate::tests::first::FIRST;
use crate::tests::support::*;
use std::test::Fail;

const CUT: [Entry<'static>; 16] = [
    // fewer bytes than a length and a kind take
    Bytes(&[1]),
    Bytes(&[1, 0]),
    Bytes(&[1, 0, 1]),
    Bytes(&[0]),
    Bytes(&[0, 0]),
    Bytes(&[0, 0, 5]),
    // fewer bytes than the length says: none of 1, 4 of 5, 1 of 256, 6 of 65535
    Bytes(&[1, 0, 1, 0]),
    Bytes(&[5, 0, 1, 0, 97, 97, 97, 97]),
    Bytes(&[0, 1, 1, 0, 97]),
    Bytes(&[255, 255, 4, 0, 1, 0, 0, 0, 0, 0]),
    // an unknown kind too
    Bytes(&[1, 0, 0, 0]),
    Bytes(&[2, 0, 8, 0, 97]),
    // a wrong length too
    Bytes(&[7, 0, 4, 0, 1, 0, 0, 0, 0, 0]),
    Bytes(&[1, 0, 5, 0]),
    // a bad text too, and a property before any strand or after another
    Bytes(&[17, 0, 1, 0, 32, 32]),
    Bytes(&[12, 0, 7, 0, 3, 0]),
];

#[test]
fn at_every_place_of_the_order(rt: HostRuntime) -> Result<(), Fail> {
    let t = Tester::new(&rt);
    t.expect_each(
        &[Place::Start, Place::Texts, Place::Strand, Place::End],
        &CUT,
        1,
    )
}

// The reply to the first bytes of the fifty, whose records end after 5, 10, 20, 24, 34 and 50.
fn reply_when_cut_at(len: usize) -> Reply {
    match len {
        0 => Err(refused!(9, 0)),
        1..=4 => Err(refused!(1, 0)),
        5 => Err(refused!(9, 1)),
        6..=9 => Err(refused!(1, 1)),
        10 => Err(refused!(9, 2)),
        11..=19 => Err(refused!(1, 2)),
        20 => Err(refused!(9, 3)),
        21..=23 => Err(refused!(1, 3)),
        24 => Err(refused!(9, 4)),
        25..=33 => Err(refused!(1, 4)),
        34 => Err(refused!(9, 5)),
        35..=49 => Err(refused!(1, 5)),
        _ => Ok(()),
    }
}

#[test]
fn at_every_byte(rt: HostRuntime) -> Result<(), Fail> {
    let first = *FIRST;
    for len in 0..51 {
        let reply = reply_to(rt.alloc(), &first[0..len])?;
        assert_eq!(rt; reply, reply_when_cut_at(len), "{}", len);
    }
    Ok(())
}

// A length of two bytes: 256 is cut where 255 bytes follow, and whole where 256 do. No text is that long.
#[test]
fn at_a_long_body(rt: HostRuntime) -> Result<(), Fail> {
    let t = Tester::new(&rt);
    let mut file = SheetFile::new(t.heap);
    file.raw(&[0, 1, 1, 0])?;
    file.raw(&[97; 255])?;
    t.expect(&file, Err(refused!(1, 0)))?;
    file.raw(&[97])?;
    t.expect(&file, Err(refused!(4, 0)))
}
