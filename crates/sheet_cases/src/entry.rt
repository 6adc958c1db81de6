// What stands in a sheet file, as data, lawful or not. A kind is a number, since some of the cases have kinds that there
// are not, and the numbers stand in a row as they do in the file.

#[derive(Clone, Copy, Debug)]
pub enum Entry<'a> {
    Label(&'a [u8]),
    Name(&'a [u8]),
    Variable(&'a [u8]),
    // kind, a and b
    Node(u16, u16, u16),
    Strand,
    // kind, a and b
    Step(u16, u16, u16),
    // direction, label and node of the earlier action, and then of the later one
    Property([u16; 6]),
    // a whole record of any kind and body
    Record(u16, &'a [u8]),
    // bytes as they are, also such as make no whole record
    Bytes(&'a [u8]),
}
