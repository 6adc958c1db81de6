// How many steps each strand of a sheet can take on its own, one number for each.
ghost use Rattle.std.specs.Prelude.{◌≡◌};

use terms::StrandNo;

#[derive(Drop)]
pub struct Limits {
    pub(crate) numbers: Vec<usize>,
}

impl Limits {
    ghost use Rattle.limits.specs.Limits.{most_in};

    // How many steps of a strand can be satisfied together, from the first on; none where there is no such strand.
    pub fn most(&self, strand: StrandNo) -> usize
        ensures { result ≡ most_in self.now strand.0 }
    {
        self.numbers
            .as_slice()
            .get(strand.0 as usize)
            .copied()
            .unwrap_or(0)
    }
}
