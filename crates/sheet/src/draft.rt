// A sheet while its file is read: the tables so far, and which variables steps have bound.
ghost use Rattle.std.specs.Prelude.{◌≡◌, ℕ, map};
ghost use Rattle.terms.specs.Sets.{bits};
ghost use Rattle.terms.specs.Tables.{nodes_in};
ghost use Rattle.protocol.specs.Strands.{steps_of};
ghost use Rattle.sheet.specs.Tracking.{in?, bound?, bound_last?};

use crate::tables::Tables;
use protocol::Step;
use terms::VarSet;

#[derive(Drop)]
pub struct Draft {
    pub(crate) tables: Tables,
    // the variables that any step binds
    pub(crate) bound: VarSet,
    // the variables that a step of the latest strand binds
    pub(crate) here: VarSet,
    ghost bound_is: { (x : ℕ) → in? x (bits bound) ≡ bound? (nodes_in tables.nodes) (map steps_of tables.strands.items) x },
    ghost here_is: { (x : ℕ) → in? x (bits here) ≡ bound_last? (nodes_in tables.nodes) (map steps_of tables.strands.items) x },
}

// A step that may be added, and the variables that it binds.
#[derive(Clone, Copy)]
pub struct Placed {
    pub step: Step,
    pub binds: VarSet,
}
