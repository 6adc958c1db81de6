// A binding: a variable, and the node that it stands for.
use terms::{NodeNo, Variable};

#[derive(Clone, Copy, Debug, PartialEq, Eq)]
pub struct Binding {
    pub variable: Variable,
    pub node: NodeNo,
}
