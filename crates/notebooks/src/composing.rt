// What can be put together from marked terms. A table has one answer for each place, filled by recursion on falling
// place numbers, the form that the project asks of a notebook, so each place is looked at once however large its tree is.
ghost use Rattle.std.specs.Prelude.{◌≡◌, ◌<◌, ◌≤◌, length};
ghost use Rattle.terms.specs.Nodes.{term};
ghost use Rattle.analysis.specs.Parts.{knows as known-term, composed};
ghost use Rattle.analysis.specs.Marks.{Made};
ghost use Rattle.notebooks.specs.Lists.{nodes_of};

use crate::marks::Known;
use notebook::MOST_NODES;
use terms::{Node, NodeNo};

impl Known<'_> {
    // Whether the term at a place is known or put together, from the table of the places before it.
    #[tactic(auto, using(crate::proofs::Rows::name_told))]
    fn makes(&self, made: &[bool; MOST_NODES], place: NodeNo) -> bool
        requires held { place.0 < length (nodes_of self.now.pages.now) }
        requires below { Made (nodes_of self.now.pages.now) self.now.known.now made.now place.0 }
        ensures { let ns = nodes_of self.now.pages.now in result ≡ composed (known-term ns self.now.known.now) (term ns place.0) }
    {
        if self.knows(place) {
            return true;
        }
        match self.pages.node(place) {
            Node::Env(_) => true,
            Node::Name(_) | Node::Var(_) => false,
            Node::Pair { left, right } => made[left.0 as usize] && made[right.0 as usize],
            Node::Seal { body, key } => {
                self.pages.table.is_name(key) && made[body.0 as usize] && made[key.0 as usize]
            }
        }
    }

    // Fills the table below place n.
    fn compose(&self, made: &mut [bool; MOST_NODES], n: usize)
        requires { n ≤ length (nodes_of self.now.pages.now) }
        ensures { Made (nodes_of self.now.pages.now) self.now.known.now made.new n }
    {
        if n == 0 {
            return;
        }
        self.compose(made, n - 1);
        let whole = self.makes(made, NodeNo((n - 1) as u16));
        made[n - 1] = whole;
    }

    // Whether the term at a place can be put together from the marked terms.
    pub(crate) fn composes(&self, place: NodeNo) -> bool
        requires { place.0 < length (nodes_of self.now.pages.now) }
        ensures { let ns = nodes_of self.now.pages.now in result ≡ composed (known-term ns self.now.known.now) (term ns place.0) }
    {
        let i = place.0 as usize;
        let mut made = [false; MOST_NODES];
        self.compose(&mut made, i + 1);
        made[i]
    }
}
