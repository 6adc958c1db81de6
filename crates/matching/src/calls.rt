// What a matching does.
ghost use Rattle.std.specs.Prelude.{◌≡◌, ℕ, ◌≤◌, [], length, take, IfOk};
ghost use Rattle.terms.specs.Tables.{nodes_in};
ghost use Rattle.sheet.specs.Sheets.{content_of};
ghost use Rattle.matching.specs.Matchings.{nodes_of, bound, MostGeneral, Matches, Opened};

use crate::bindings::Bindings;
use crate::classes::Classes;
use crate::fault::{MatchFault, TableFault};
use crate::matching::Matching;
use crate::solver::Solver;
use sheet::Sheet;
use std::alloc::{AllocError, Global};
use terms::{NodeNo, NodeTable};
use unification::{Ask, Binding};

const MOST_NODES: usize = 65536;

impl Matching {
    // A matching of so few nodes that each has a number, with nothing bound. All memory is taken here.
    fn of_few(heap: Global, nodes: NodeTable) -> Result<Matching, AllocError>
        requires { length (nodes_in nodes) ≤ 65536 }
        ensures { IfOk result (λ m. (nodes_of m ≡ nodes_in nodes) × (bound m ≡ [])) }
    {
        let n = nodes.len();
        let bindings = Bindings::new(heap)?;
        let classes = Classes::new(heap, n)?;
        let unused = Ask {
            left: NodeNo(0),
            right: NodeNo(0),
        };
        let asks = vec![in heap; unused; n + 1]?;
        let solver = Solver {
            nodes,
            bindings,
            classes,
        };
        Ok(Matching { solver, asks })
    }

    // A matching of these nodes, with nothing bound.
    pub fn over(heap: Global, nodes: NodeTable) -> Result<Matching, TableFault>
        ensures { Opened (nodes_in nodes) result }
    {
        if nodes.len() > MOST_NODES {
            return Err(TableFault::TooLong);
        }
        Ok(Matching::of_few(heap, nodes)?)
    }

    // A matching of the nodes of a sheet, with nothing bound.
    pub fn open(heap: Global, sheet: &Sheet) -> Result<Matching, AllocError>
        ensures { IfOk result (λ m. (nodes_of m ≡ (content_of sheet.now).nodes) × (bound m ≡ [])) }
    {
        let nodes = sheet.table().clone()?;
        Matching::of_few(heap, nodes)
    }

    // The bindings, oldest first.
    pub fn bindings(&self) -> &[Binding]
        ensures list { result.now ≡ bound self.now }
        ensures general { MostGeneral (nodes_of self.now) (bound self.now) }
    {
        self.solver.bindings.as_slice()
    }

    // Whether some instance of the bindings makes two nodes equal; if so, the bindings become those of such instances.
    pub fn matches(&mut self, a: NodeNo, b: NodeNo) -> Result<bool, MatchFault>
        ensures answer { Matches (nodes_of self.old) (bound self.old) a.0 b.0 result (bound self.new) }
        ensures nodes { nodes_of self.new ≡ nodes_of self.old }
    {
        if !self.solver.nodes.contains(a) || !self.solver.nodes.contains(b) {
            return Err(MatchFault::NoSuchNode);
        }
        let before = self.solver.bindings.len();
        let ask = Ask { left: a, right: b };
        let yes = self.solver.run(&mut self.asks, ask);
        self.solver.classes.reset();
        if !yes {
            self.solver.bindings.cut(before);
        }
        Ok(yes)
    }

    // The first n bindings stay.
    pub(crate) fn cut(&mut self, n: usize)
        ensures list { bound self.new ≡ take n (bound self.old) }
        ensures nodes { nodes_of self.new ≡ nodes_of self.old }
    {
        self.solver.bindings.cut(n);
    }
}
