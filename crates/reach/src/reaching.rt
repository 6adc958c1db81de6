// What taking apart reaches from some nodes.
ghost use Rattle.std.specs.Prelude.{ℕ, ◌<◌, Decides};
ghost use Rattle.terms.specs.Bits.{In};
ghost use Rattle.terms.specs.Sets.{bits};
ghost use Rattle.terms.specs.Tables.{nodes_in};
ghost use Rattle.unification.specs.Bindings.{Unbound};
ghost use Rattle.reach.specs.Steps.{Bound};
ghost use Rattle.reach.specs.Reached.{Told};

use crate::parts::Parts;
use crate::reached::Reach;
use terms::{NodeNo, NodeTable, VARIABLES, VarSet, Variable};
use unification::Binding;

fn is_bound(bindings: &[Binding], x: Variable) -> bool
    ensures { Decides result (Bound bindings.now x.0) }
{
    for b in bindings {
        if b.variable == x {
            return true;
        }
    }
    false
}

// The variables that are not bound.
fn unbound(bindings: &[Binding]) -> VarSet
    ensures { (x : ℕ) → (In x (bits result) → Unbound bindings.now x) × (x < 64 → Unbound bindings.now x → In x (bits result)) }
{
    let mut set = VarSet::empty();
    for x in 0..VARIABLES {
        let v = Variable(x);
        if !is_bound(bindings, v) {
            set = set.with(v);
        }
    }
    set
}

// The variables in both sets.
fn common(a: VarSet, b: VarSet) -> VarSet
    ensures small { (x : ℕ) → In x (bits a) → x < 64 }
    ensures both { (x : ℕ) → (In x (bits result) → In x (bits a) × In x (bits b)) × (In x (bits a) → In x (bits b) → In x (bits result)) }
{
    let mut set = VarSet::empty();
    for x in 0..VARIABLES {
        let v = Variable(x);
        if a.contains(v) && b.contains(v) {
            set = set.with(v);
        }
    }
    set
}

// What some nodes of a table come apart into under the bindings of a matching of that table; none where one of them is no
// node of it. The table and the bindings are asked for, since a matching lends no nodes.
pub fn reach(nodes: &NodeTable, bindings: &[Binding], heads: &[NodeNo]) -> Option<Reach>
    ensures { Told (nodes_in nodes.now) bindings.now heads.now result }
{
    let unbound = unbound(bindings);
    let mut parts = Parts::none(unbound);
    for head in heads {
        if !nodes.contains(*head) {
            return None;
        }
        parts.mark(nodes, *head);
    }
    parts.settle(nodes, bindings);
    Some(Reach {
        names: parts.names,
        seals: parts.seals,
        variables: common(parts.variables, unbound),
    })
}
