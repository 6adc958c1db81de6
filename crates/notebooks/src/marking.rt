// Marks on the first places of the parts of what was noted: halves of marked pairs, and bodies of marked seals under a
// name that is marked or of the environment.
ghost use Rattle.std.specs.Prelude.{◌≡◌, ℕ, ◌<◌, false, length, slice_index_or};
ghost use Rattle.terms.specs.Nodes.{term};
ghost use Rattle.analysis.specs.Places.{first as first-place};
ghost use Rattle.analysis.specs.Parts.{knows as known-term, opens as opens-key};
ghost use Rattle.analysis.specs.Marks.{Marked, Spread, Passing, Settled, Learned, Noting};
ghost use Rattle.notebooks.specs.Lists.{nodes_of, noted_of, Same};

use crate::marks::{Known, Marks};
use crate::noted::Pages;
use terms::{Node, NodeNo};

impl Known<'_> {
    // Whether the term at a place is marked.
    pub(crate) fn knows(&self, place: NodeNo) -> bool
        requires { place.0 < length (nodes_of self.now.pages.now) }
        ensures { let ns = nodes_of self.now.pages.now in result ≡ known-term ns self.now.known.now (term ns place.0) }
    {
        self.known[self.pages.first_of(place).0 as usize]
    }

    // Whether a key is a name that is known.
    fn opens(&self, key: NodeNo) -> bool
        requires { key.0 < length (nodes_of self.now.pages.now) }
        ensures { let ns = nodes_of self.now.pages.now in result ≡ opens-key (known-term ns self.now.known.now) (term ns key.0) }
    {
        match self.pages.node(key) {
            Node::Name(_) => self.knows(key),
            Node::Env(_) => true,
            Node::Var(_) | Node::Pair { .. } | Node::Seal { .. } => false,
        }
    }
}

impl Marks<'_> {
    // The marks as they are now.
    pub(crate) fn seen(&self) -> Known<'_>
        ensures pages { result.pages ≡ self.now.pages }
        ensures known { result.known.now ≡ self.now.known.now }
    {
        Known {
            pages: self.pages,
            known: self.known,
        }
    }

    // Marks the term at a place, and says whether that is new.
    fn mark(&mut self, place: NodeNo) -> bool
        requires { place.0 < length (nodes_of self.old.pages.now) }
        ensures same { Same self.old self.new }
        ensures marked { let ns = nodes_of self.old.pages.now in Marked self.old.known.now (first-place ns (term ns place.0)) self.new.known.now result }
    {
        let at = self.pages.first_of(place).0 as usize;
        if self.known[at] {
            return false;
        }
        self.known[at] = true;
        true
    }

    // Takes the term at a place apart, if it is marked, and says whether that marked anything.
    fn spread(&mut self, place: NodeNo) -> bool
        requires { place.0 < length (nodes_of self.old.pages.now) }
        ensures same { Same self.old self.new }
        ensures spread { Spread (nodes_of self.old.pages.now) self.old.known.now place.0 self.new.known.now result }
    {
        if !self.seen().knows(place) {
            return false;
        }
        match self.pages.node(place) {
            Node::Name(_) | Node::Env(_) | Node::Var(_) => false,
            Node::Pair { left, right } => {
                let l = self.mark(left);
                let r = self.mark(right);
                l || r
            }
            Node::Seal { body, key } => {
                if !self.seen().opens(key) {
                    return false;
                }
                self.mark(body)
            }
        }
    }

    // Takes each marked term apart once, the later places first since parts stand before their wholes. A turn changes the
    // marks that the next one reads, so a closure over the places would be no plainer than the loop.
    fn pass(&mut self) -> bool
        ensures same { Same self.old self.new }
        ensures passing { Passing (nodes_of self.old.pages.now) self.old.known.now 0 self.new.known.now result }
    {
        let mut changed = false;
        for i in (0..self.pages.table.len()).rev() {
            if self.spread(NodeNo(i as u16)) {
                changed = true;
            }
        }
        changed
    }

    // Marks all that comes of the marks. Each pass but the last marks a place more, so this is quadratic at most.
    pub(crate) fn settle(&mut self)
        ensures same { Same self.old self.new }
        ensures settled { Settled (nodes_of self.old.pages.now) self.old.known.now self.new.known.now }
    {
        while self.pass() {}
    }

    // Marks the noted terms, in a table without marks.
    pub(crate) fn mark_noted(&mut self)
        requires { (i : ℕ) → slice_index_or self.old.known.now i false ≡ false }
        ensures same { Same self.old self.new }
        ensures noting { Noting (nodes_of self.old.pages.now) (noted_of self.old.pages.now) self.new.known.now }
    {
        for place in self.pages.notes.as_slice() {
            self.mark(*place);
        }
    }
}

impl Pages {
    // Marks the term at a place and all that comes of it.
    pub(crate) fn learn(&self, known: &mut [bool], place: NodeNo)
        requires size { length known.old ≡ length (nodes_of self.now) }
        requires held { place.0 < length (nodes_of self.now) }
        ensures { let ns = nodes_of self.now in Learned ns known.old (first-place ns (term ns place.0)) known.new }
    {
        let mut marks = Marks { pages: self, known };
        marks.mark(place);
        marks.settle();
    }
}
