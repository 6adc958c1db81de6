// A matching: a table of nodes with the bindings so far, and the memory that a match works in.
ghost use Rattle.std.specs.Prelude.{◌≡◌, ℕ, ◌<◌, length, vec_len};
ghost use Rattle.terms.specs.Tables.{nodes_in};

use crate::solver::Solver;
use unification::Ask;

// Its invariants are ghost fields, and it has no model: a trial rests on them, and a view would hide them.
#[derive(Drop)]
pub struct Matching {
    pub(crate) solver: Solver,
    // memory for the pairs that wait, lent to a stack: none is taken after the start
    pub(crate) asks: Vec<Ask>,
    // every node is a class of its own between matches
    ghost calm: { vec_len solver.classes.linked ≡ 0 },
    ghost roomy: { length (nodes_in solver.nodes) < vec_len asks },
}
