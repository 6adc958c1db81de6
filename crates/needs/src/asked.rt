// The nodes that are asked for.
ghost use Rattle.std.specs.Prelude.{◌≡◌, ℕ, false};

use terms::NodeNo;

// the number of a node is below this
pub(crate) const NODES: usize = 65536;

#[derive(Drop)]
pub struct Asked {
    nodes: [bool; NODES],
}

impl Asked {
    ghost use Rattle.needs.specs.Asked.{asked, Added};

    pub(crate) fn none() -> Asked
        ensures { (i : ℕ) → asked result i ≡ false }
    {
        Asked {
            nodes: [false; NODES],
        }
    }

    pub(crate) fn has(&self, n: NodeNo) -> bool
        ensures { result ≡ asked self.now n.0 }
    {
        self.nodes[n.0 as usize]
    }

    pub(crate) fn add(&mut self, n: NodeNo)
        ensures { Added self.old n.0 self.new }
    {
        self.nodes[n.0 as usize] = true;
    }
}
