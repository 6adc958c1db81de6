// What taking apart reaches, to be asked.
ghost use Rattle.std.specs.Prelude.{◌≡◌};
ghost use Rattle.terms.specs.Sets.{bits};

use crate::numbers::Numbers;
use terms::{LocalName, NodeNo, VarSet};

#[derive(Drop)]
pub struct Reach {
    pub(crate) names: Numbers,
    pub(crate) seals: Numbers,
    pub(crate) variables: VarSet,
}

impl Reach {
    ghost use Rattle.reach.specs.Reached.{name_in, seal_in, variables_in};

    // Whether a local name is reached.
    pub fn has_name(&self, name: LocalName) -> bool
        ensures { result ≡ name_in self.now name.0 }
    {
        self.names.contains(name.0)
    }

    // Whether a node is a seal that is reached.
    pub fn has_seal(&self, node: NodeNo) -> bool
        ensures { result ≡ seal_in self.now node.0 }
    {
        self.seals.contains(node.0)
    }

    // The unbound variables that are reached.
    pub fn variables(&self) -> VarSet
        ensures { bits result ≡ variables_in self.now }
    {
        self.variables
    }
}
