// What is read of a table of pages.
ghost use Rattle.std.specs.Prelude.{◌≡◌, ◌<◌, length, Decides};
ghost use Rattle.terms.specs.Nodes.{Below, says, term};
ghost use Rattle.terms.specs.Terms.{IsName};
ghost use Rattle.pages.specs.Pages.{nodes_on, PageAt};

use crate::page::{Page, PageTable};
use terms::{Node, NodeNo};

impl PageTable {
    // How many pages there are.
    pub fn len(&self) -> usize
        ensures { result ≡ length (nodes_on self.now) }
    {
        self.list.len()
    }

    // Whether a place is held. No type says so: a place is held by some tables and not by others.
    pub fn holds(&self, place: NodeNo) -> bool
        ensures { Decides result (place.0 < length (nodes_on self.now)) }
    {
        (place.0 as usize) < self.list.len()
    }

    // The page at a place.
    #[tactic(auto, using(crate::proofs::Paging::page_at))]
    pub fn get(&self, place: NodeNo) -> Option<Page>
        ensures { PageAt (nodes_on self.now) place.0 result }
    {
        self.list.get(place.0 as usize).copied()
    }

    // The node at a place: its parts stand before it, and the term at the place is what it says.
    #[tactic(auto, using(crate::proofs::Paging::node_below, crate::proofs::Paging::node_says))]
    pub(crate) fn node(&self, place: NodeNo) -> Node
        requires { place.0 < length (nodes_on self.now) }
        ensures below { Below place.0 result }
        ensures says { term (nodes_on self.now) place.0 ≡ says (term (nodes_on self.now)) result }
    {
        self.list[place.0 as usize].node
    }

    // Whether two places are held and hold one term.
    #[tactic(auto, using(crate::proofs::Rows::same_told))]
    pub fn same(&self, a: NodeNo, b: NodeNo) -> bool
        ensures { let ns = nodes_on self.now in Decides result ((a.0 < length ns) × (b.0 < length ns) × (term ns a.0 ≡ term ns b.0)) }
    {
        match (self.get(a), self.get(b)) {
            (Some(x), Some(y)) => x.first == y.first,
            _ => false,
        }
    }

    // Whether a place is held and its term is a name.
    pub fn is_name(&self, place: NodeNo) -> bool
        ensures { let ns = nodes_on self.now in Decides result ((place.0 < length ns) × IsName (term ns place.0)) }
    {
        self.holds(place) && matches!(self.node(place), Node::Name(_) | Node::Env(_))
    }
}
