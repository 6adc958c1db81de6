// What a need comes down to.
use terms::{NodeNo, VarSet, Variable};

#[derive(Clone, Copy, Debug, PartialEq, Eq)]
pub enum Need {
    // it is met; the variables that are marked or needed
    Met(VarSet),
    // it is met in no run
    Never,
    // the node is a seal under a name that is not reached
    Shut(NodeNo),
    // the node is a seal under a variable that is not marked
    Keyed(NodeNo, Variable),
}
