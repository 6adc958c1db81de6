// Entries of a sheet file: what a record says, before anything is known of the sheet.

// the three numbers of a node, a step or an action; whether the kind is one is asked later, after other rules
#[derive(Clone, Copy, Debug, PartialEq, Eq)]
pub struct Fields {
    pub kind: u16,
    pub a: u16,
    pub b: u16,
}

// the numbers of a property
#[derive(Clone, Copy, Debug, PartialEq, Eq)]
pub struct PropertyFields {
    pub earlier: Fields,
    pub later: Fields,
}

#[derive(Clone, Copy)]
pub enum Entry<'a> {
    Label(&'a [u8]),
    Name(&'a [u8]),
    Variable(&'a [u8]),
    Node(Fields),
    Strand,
    Step(Fields),
    Property(PropertyFields),
}

// There is no entry, node, step, action or property with these numbers.
#[derive(Clone, Copy, Debug, PartialEq, Eq)]
pub struct Unknown;
