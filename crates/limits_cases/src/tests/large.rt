// Sixteen steps, 256 nodes, and values with more leaves than can be counted.
use crate::tests::support::*;
use sheet_cases::Entry::*;
use sheet_cases::SheetFile;
use sheet_cases::kind::*;
use std::alloc::{AllocError, Global};
use std::test::Fail;

// the label a, the name n, and variables; the nodes n and the variables
fn texts(heap: Global, variables: u16) -> Result<SheetFile, AllocError> {
    let mut file = SheetFile::new(heap);
    file.entries(&[Label(b"a"), Name(b"n")])?;
    file.repeat(Variable(b"x"), variables as usize)?;
    file.entry(Node(NAME, 0, 0))?;
    for x in 0..variables {
        file.entry(Node(VARIABLE, x, 0))?;
    }
    Ok(file)
}

#[test]
fn sixteen_steps(rt: HostRuntime) -> Result<(), Fail> {
    // x comes in and goes out again and again
    let mut file = texts(rt.alloc(), 1)?;
    file.entries(&[Strand, Step(INPUT, 0, 0)])?;
    file.repeat(Step(OUTPUT, 0, 1), 15)?;
    file.entry(Property([NONE, 0, 0, OUTPUT, 0, 0]))?;
    expect(&rt, rt.alloc(), &file, &[16, 0, 0, 0, 0, 0, 0, 0])
}

#[test]
fn seals_in_seals(rt: HostRuntime) -> Result<(), Fail> {
    // x1 is the body of x0, x2 that of x1, and so on; the last step asks that x0 be x14
    let mut file = texts(rt.alloc(), 15)?;
    for x in 1..15u16 {
        file.entry(Node(SEAL, x + 1, 0))?;
    }
    file.entries(&[Strand, Step(INPUT, 0, 0)])?;
    for x in 0..14u16 {
        file.entry(Step(OPEN, x + 1, x + 16))?;
    }
    file.entry(Step(SAME, 1, 15))?;
    file.entry(Property([NONE, 0, 0, OUTPUT, 0, 0]))?;
    expect(&rt, rt.alloc(), &file, &[15, 0, 0, 0, 0, 0, 0, 0])
}

#[test]
fn towers(rt: HostRuntime) -> Result<(), Fail> {
    // a tower of pairs over x, 256 nodes in all, goes out; then x has to be the tower
    let mut file = texts(rt.alloc(), 1)?;
    for i in 1..255u16 {
        file.entry(Node(PAIR, i, i))?;
    }
    file.entries(&[
        Strand,
        Step(INPUT, 0, 0),
        Step(OUTPUT, 0, 255),
        Step(SAME, 255, 254),
        Step(OUTPUT, 0, 255),
    ])?;
    file.entry(Property([NONE, 0, 0, OUTPUT, 0, 0]))?;
    expect(&rt, rt.alloc(), &file, &[2, 0, 0, 0, 0, 0, 0, 0])
}

#[test]
fn towers_of_seals(rt: HostRuntime) -> Result<(), Fail> {
    // n sealed under x over and over again, 256 nodes in all, goes out; then x has to be a pair
    let mut file = texts(rt.alloc(), 3)?;
    file.entries(&[Node(PAIR, 2, 3), Node(SEAL, 0, 1)])?;
    for i in 5..255u16 {
        file.entry(Node(SEAL, i, 1))?;
    }
    file.entries(&[
        Strand,
        Step(INPUT, 0, 0),
        Step(OUTPUT, 0, 255),
        Step(SPLIT, 1, 4),
    ])?;
    file.entry(Property([NONE, 0, 0, OUTPUT, 0, 0]))?;
    expect(&rt, rt.alloc(), &file, &[2, 0, 0, 0, 0, 0, 0, 0])
}

// x0 to x7 come in, x1 is the pair of x0 and x0, x2 that of x1 and x1, and so on; then n goes out, sealed under one of them.
fn doubles(heap: Global, key: u16) -> Result<SheetFile, AllocError> {
    let mut file = texts(heap, 8)?;
    for x in 0..7u16 {
        file.entry(Node(PAIR, x + 1, x + 1))?;
    }
    file.entries(&[Node(SEAL, 0, key), Strand])?;
    for x in 0..8u16 {
        file.entry(Step(INPUT, 0, x))?;
    }
    for x in 0..7u16 {
        file.entry(Step(SAME, x + 2, x + 9))?;
    }
    file.entries(&[Step(OUTPUT, 0, 16), Property([NONE, 0, 0, OUTPUT, 0, 0])])?;
    Ok(file)
}

#[test]
fn doubled_values(rt: HostRuntime) -> Result<(), Fail> {
    let plain = doubles(rt.alloc(), 1)?;
    expect(&rt, rt.alloc(), &plain, &[16, 0, 0, 0, 0, 0, 0, 0])?;
    let paired = doubles(rt.alloc(), 8)?;
    expect(&rt, rt.alloc(), &paired, &[15, 0, 0, 0, 0, 0, 0, 0])
}
