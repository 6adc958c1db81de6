// A strand: at most sixteen steps, in their order.
ghost use Rattle.std.specs.Prelude.{◌≡◌, ◌<◌, ◌≤◌, [], ◌∷◌, ◌++◌, length, MatchOption};

use crate::step::Step;
use terms::NodeNo;

// Fixed memory: a strand is copied without asking for any, as an ArrayVec of steps is not.
#[derive(Clone, Copy)]
pub struct Strand {
    steps: [Step; 16],
    len: usize,
    ghost within: { len ≤ 16 },
    ghost long: { length steps ≡ 16 },
}

impl Strand {
    ghost use Rattle.protocol.specs.Strands.{steps_of};

    pub fn empty() -> Strand
        ensures { steps_of result ≡ [] }
    {
        let unused = Step::Same {
            left: NodeNo(0),
            right: NodeNo(0),
        };
        Strand {
            steps: [unused; 16],
            len: 0,
        }
    }

    pub fn steps(&self) -> &[Step]
        ensures { result.now ≡ steps_of self.now }
    {
        &self.steps[..self.len]
    }

    // The strand with one step more, or none where it has sixteen.
    pub fn with(self, step: Step) -> Option<Strand>
        ensures { MatchOption result (length (steps_of self) ≡ 16) (λ s. (length (steps_of self) < 16) × (steps_of s ≡ steps_of self ++ (step ∷ []))) }
    {
        if self.len == self.steps.len() {
            return None;
        }
        let mut longer = self;
        longer.steps[self.len] = step;
        longer.len += 1;
        Some(longer)
    }
}
