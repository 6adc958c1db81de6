// Two nodes that are to be made equal, and what that asks of them.
ghost use Rattle.std.specs.Prelude.{◌≡◌};
ghost use Rattle.terms.specs.declared.node.Node.TheVariants.{Var};
ghost use Rattle.unification.specs.Asking.{Tells};

use terms::{Node, NodeNo, Variable};

#[derive(Clone, Copy, Debug, PartialEq, Eq)]
pub struct Ask {
    pub left: NodeNo,
    pub right: NodeNo,
}

#[derive(Clone, Copy, Debug, PartialEq, Eq)]
pub enum Compared {
    // equal under every substitution
    Same,
    // equal under none
    Clash,
    // the left node is this variable, and the right one is not
    Left(Variable),
    // the right node is this variable, and the left one is not
    Right(Variable),
    // equal exactly where both pairs of parts are
    Parts { first: Ask, second: Ask },
}

// What two nodes ask of each other, looking no deeper than the nodes themselves.
pub fn compare(a: Node, b: Node) -> Compared
    ensures { Tells a b result }
{
    match (a, b) {
        (Node::Name(m), Node::Name(n)) if m == n => Compared::Same,
        (Node::Env(d), Node::Env(e)) if d == e => Compared::Same,
        (Node::Var(x), Node::Var(y)) if x == y => Compared::Same,
        (Node::Var(x), _) => Compared::Left(x),
        (_, Node::Var(y)) => Compared::Right(y),
        (Node::Pair { left: l, right: r }, Node::Pair { left: m, right: s })
        | (Node::Seal { body: l, key: r }, Node::Seal { body: m, key: s }) => Compared::Parts {
            first: Ask { left: l, right: m },
            second: Ask { left: r, right: s },
        },
        _ => Compared::Clash,
    }
}
