// Numbers of different sorts. Each is a type of its own, so that none is taken for another's.

// the label of an action
#[derive(Clone, Copy, Debug, PartialEq, Eq, PartialOrd, Ord)]
pub struct Label(pub u16);

// a name of the parties
#[derive(Clone, Copy, Debug, PartialEq, Eq, PartialOrd, Ord)]
pub struct LocalName(pub u16);

// a name of the environment
#[derive(Clone, Copy, Debug, PartialEq, Eq, PartialOrd, Ord)]
pub struct EnvName(pub u16);

// The number of a variable in a table or a set is below this, so that the variables of a term are the bits of a word.
pub const VARIABLES: u16 = 64;

#[derive(Clone, Copy, Debug, PartialEq, Eq, PartialOrd, Ord)]
pub struct Variable(pub u16);

// the place of a node in its table; where it is an index, `.0 as usize` is as short as a conversion would be
#[derive(Clone, Copy, Debug, PartialEq, Eq, PartialOrd, Ord)]
pub struct NodeNo(pub u16);

#[derive(Clone, Copy, Debug, PartialEq, Eq, PartialOrd, Ord)]
pub struct StrandNo(pub u16);
