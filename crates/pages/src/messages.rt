// Whether a term is a message, told by a table that has one answer for each place, filled by recursion on falling place
// numbers: each place is looked at once however large its tree is.
ghost use Rattle.std.specs.Prelude.{◌<◌, ◌≤◌, length, Decides};
ghost use Rattle.terms.specs.Nodes.{term};
ghost use Rattle.terms.specs.Terms.{Atom, Message};
ghost use Rattle.pages.specs.Pages.{nodes_on, Told};

use crate::page::PageTable;
use notebook::MOST_NODES;
use terms::{Node, NodeNo};

impl PageTable {
    // Whether the term at a place may be a key of a message: no variable stands here, so that is whether it is a name.
    fn is_key(&self, place: NodeNo) -> bool
        requires { place.0 < length (nodes_on self.now) }
        ensures { Decides result (Atom (term (nodes_on self.now) place.0)) }
    {
        self.is_name(place)
    }

    // Whether the term of a node is a message, from the table of the places before it.
    fn is_said(&self, said: &[bool; MOST_NODES], place: NodeNo) -> bool
        requires held { place.0 < length (nodes_on self.now) }
        requires below { Told (nodes_on self.now) said.now place.0 }
        ensures { Decides result (Message (term (nodes_on self.now) place.0)) }
    {
        match self.node(place) {
            Node::Name(_) | Node::Env(_) | Node::Var(_) => true,
            Node::Pair { left, right } => said[left.0 as usize] && said[right.0 as usize],
            Node::Seal { body, key } => said[body.0 as usize] && self.is_key(key),
        }
    }

    // Fills the table below place n.
    fn tell(&self, said: &mut [bool; MOST_NODES], n: usize)
        requires { n ≤ length (nodes_on self.now) }
        ensures { Told (nodes_on self.now) said.new n }
    {
        if n == 0 {
            return;
        }
        self.tell(said, n - 1);
        let whole = self.is_said(said, NodeNo((n - 1) as u16));
        said[n - 1] = whole;
    }

    // Whether a place is held and its term is a message.
    pub fn is_message(&self, place: NodeNo) -> bool
        ensures { let ns = nodes_on self.now in Decides result ((place.0 < length ns) × Message (term ns place.0)) }
    {
        if !self.holds(place) {
            return false;
        }
        let i = place.0 as usize;
        let mut said = [false; MOST_NODES];
        self.tell(&mut said, i + 1);
        said[i]
    }
}
