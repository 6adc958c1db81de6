// Sets of variables with numbers below 64, as the bits of a number.
ghost use Rattle.std.specs.Prelude.{◌≡◌, ℕ, ◌^◌, ◌<◌, ◌⊎◌, if◌then◌else◌, Decides, bit_or, nat_lt};
ghost use Rattle.terms.specs.Bits.{In};
ghost use Rattle.terms.specs.Sets.{bits};

use crate::number::{VARIABLES, Variable};

#[derive(Clone, Copy, Debug, PartialEq, Eq)]
pub struct VarSet(u64);

impl VarSet {
    pub fn empty() -> VarSet
        ensures { bits result ≡ 0 }
    {
        VarSet(0)
    }

    // The set with one variable more; a number from 64 on adds nothing.
    pub fn with(self, v: Variable) -> VarSet
        ensures value { bits result ≡ (if nat_lt v.0 64 then bit_or (bits self) (2 ^ v.0) else bits self) }
        ensures members { (x : ℕ) → (In x (bits result) → In x (bits self) ⊎ ((x ≡ v.0) × (x < 64))) × (In x (bits self) ⊎ ((x ≡ v.0) × (x < 64)) → In x (bits result)) }
    {
        if v.0 < VARIABLES {
            VarSet(self.0 | 1 << v.0)
        } else {
            self
        }
    }

    pub fn union(self, other: VarSet) -> VarSet
        ensures { bits result ≡ bit_or (bits self) (bits other) }
    {
        VarSet(self.0 | other.0)
    }

    pub fn contains(self, v: Variable) -> bool
        ensures { Decides result (In v.0 (bits self)) }
    {
        v.0 < VARIABLES && (self.0 >> v.0) & 1 == 1
    }

    pub fn is_subset(self, other: VarSet) -> bool
        ensures { Decides result ((x : ℕ) → In x (bits self) → In x (bits other)) }
    {
        self.0 & other.0 == self.0
    }

    pub fn is_disjoint(self, other: VarSet) -> bool
        ensures { Decides result ((x : ℕ) → In x (bits self) → In x (bits other) → ⊥) }
    {
        self.0 & other.0 == 0
    }
}
