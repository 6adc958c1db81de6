// Sets of the numbers of nodes and of names.
ghost use Rattle.std.specs.Prelude.{◌≡◌, ℕ, false};

use terms::{VarSet, Variable};

pub(crate) const NUMBERS: usize = 65536;

const ROWS: usize = 1024;

// One digit for each number that a node or a name can have, in rows of 64: a set takes no memory of the caller's, and is
// soon made.
#[derive(Drop)]
pub struct Numbers {
    rows: [VarSet; ROWS],
}

impl Numbers {
    ghost use Rattle.reach.specs.Numbers.{has, Added};

    pub(crate) fn none() -> Numbers
        ensures { (i : ℕ) → has result i ≡ false }
    {
        let empty = VarSet::empty();
        Numbers {
            rows: [empty; ROWS],
        }
    }

    pub(crate) fn contains(&self, n: u16) -> bool
        ensures { result ≡ has self.now n }
    {
        self.rows[(n / 64) as usize].contains(Variable(n % 64))
    }

    pub(crate) fn add(&mut self, n: u16)
        ensures { Added self.old n self.new }
    {
        let row = (n / 64) as usize;
        let more = self.rows[row].with(Variable(n % 64));
        self.rows[row] = more;
    }
}
