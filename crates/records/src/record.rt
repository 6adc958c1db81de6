// A record, and what can be wrong with the bytes of one.

// a record of a file: its body is a part of the lent bytes
#[derive(Clone, Copy)]
pub struct Record<'a> {
    // a number: which kinds there are, each kind of file says
    pub kind: u16,
    pub body: &'a [u8],
}

// what is wrong with a file as bytes, and at which record
#[derive(Clone, Copy, Debug, PartialEq, Eq)]
pub enum FileFault {
    // the bytes that are left make no whole record
    Cut(usize),
}
