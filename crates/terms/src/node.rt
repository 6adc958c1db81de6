// A node: a term whose parts are other nodes of the same table, by their numbers. Nodes are shared, and a term may be far
// larger than its table, so no term is a tree of boxes.
ghost use Rattle.std.specs.Prelude.{◌≡◌};
ghost use Rattle.terms.specs.declared.node.NodeFault.TheVariants.{NoMemory};

use crate::number::{EnvName, LocalName, NodeNo, Variable};
use std::alloc::{AllocError, AllocFailed};

#[derive(Clone, Copy, Debug, PartialEq, Eq)]
pub enum Node {
    Name(LocalName),
    Env(EnvName),
    Var(Variable),
    Pair { left: NodeNo, right: NodeNo },
    Seal { body: NodeNo, key: NodeNo },
}

// why a node is not taken
#[derive(Clone, Copy, Debug, PartialEq, Eq)]
pub enum NodeFault {
    // a reference that is not to a smaller number
    Reference,
    // a variable number above 63
    Variable,
    NoMemory,
}

// Two, since the library has an error with a value handed back and one without.
impl From<AllocError> for NodeFault {
    ghost from_gives = { λ _ r. r ≡ NoMemory };

    fn from(_: AllocError) -> NodeFault {
        NodeFault::NoMemory
    }
}

impl<T: Drop> From<AllocFailed<T>> for NodeFault {
    ghost from_gives = { λ _ r. r ≡ NoMemory };

    fn from(_: AllocFailed<T>) -> NodeFault {
        NodeFault::NoMemory
    }
}
