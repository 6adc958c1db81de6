// Steps of a strand, and the property. Terms are given by node numbers.
use terms::{Label, NodeNo, Variable};

#[derive(Clone, Copy, Debug, PartialEq, Eq)]
pub enum Step {
    // a message comes in on a label, and the variable is bound to it
    Input { label: Label, variable: Variable },
    // a message goes out on a label
    Output { label: Label, node: NodeNo },
    // the subject is unsealed under the pattern's key, and the pattern's body is bound
    Open { subject: NodeNo, pattern: NodeNo },
    // the subject is taken for a pair, and the pattern's halves are bound
    Split { subject: NodeNo, pattern: NodeNo },
    // two terms have one value
    Same { left: NodeNo, right: NodeNo },
}

#[derive(Clone, Copy, Debug, PartialEq, Eq)]
pub enum Direction {
    Input,
    Output,
}

#[derive(Clone, Copy, Debug, PartialEq, Eq)]
pub struct Action {
    pub direction: Direction,
    pub label: Label,
    pub node: NodeNo,
}

// The later action never comes without the earlier one before it.
#[derive(Clone, Copy, Debug, PartialEq, Eq)]
pub struct Property {
    pub earlier: Option<Action>,
    pub later: Action,
}
