// A node of a sheet is fitted to a term on the pages. No tree is walked: a table says for each node of the sheet the place of
// the term that it has to be, and is gone through once, downwards, since a node refers only to smaller ones.
ghost use Rattle.std.specs.Prelude.{◌≡◌, ◌<◌, ◌≤◌, ◌+◌, length, Decides};
ghost use Rattle.terms.specs.Nodes.{term, says, Below};
ghost use Rattle.protocol.specs.Lawful.{NodeLaw};
ghost use Rattle.sheet.specs.Sheets.{content_of};
ghost use Rattle.runs.specs.Runs.{bind};
ghost use Rattle.playing.specs.Judging.{unvalued};
ghost use Rattle.terms.specs.Terms.{name as name_term, pair, seal};

use pages::PageTable;
use sheet::Sheet;
use terms::{LocalName, Node, NodeNo, VARIABLES};

// a sheet has no more nodes
const MOST_NODES: usize = 256;

// and no more variables
pub(crate) const MOST_VARIABLES: usize = VARIABLES as usize;

#[derive(Clone, Copy)]
pub struct Fitting<'a> {
    pub(crate) sheet: &'a Sheet,
    pub(crate) pages: &'a PageTable,
}

impl Fitting<'_> {
    ghost use Rattle.judging.specs.Places.{values_in, AllHeld, Assigned, BothAssigned, PartsHeld, PartsAt, Settled, Fitted};
    ghost use Rattle.judging.specs.Fittings.{open_nodes, closed_nodes};

    // An entry of a table is given a place, where it has none; else the terms at both have to be one.
    fn assign(&self, places: &mut [Option<NodeNo>], entry: usize, place: NodeNo) -> bool
        requires within { entry < length places.old }
        requires held { AllHeld (closed_nodes self.now) places.old }
        requires here { place.0 < length (closed_nodes self.now) }
        ensures size { length places.new ≡ length places.old }
        ensures held { AllHeld (closed_nodes self.now) places.new }
        ensures assigned { Assigned (closed_nodes self.now) places.old entry place.0 result places.new }
    {
        match places[entry] {
            None => {
                places[entry] = Some(place);
                true
            }
            Some(first) => self.pages.same(first, place),
        }
    }

    // Two entries are given the places of two parts, where there are such.
    fn assign_parts(
        &self,
        places: &mut [Option<NodeNo>; MOST_NODES],
        first: NodeNo,
        second: NodeNo,
        parts: Option<(NodeNo, NodeNo)>,
    ) -> bool
        requires first_within { first.0 < 256 }
        requires second_within { second.0 < 256 }
        requires held { AllHeld (closed_nodes self.now) places.old }
        requires parts { PartsHeld (closed_nodes self.now) parts }
        ensures held { AllHeld (closed_nodes self.now) places.new }
        ensures assigned { BothAssigned (closed_nodes self.now) places.old first.0 second.0 parts result places.new }
    {
        let Some((a, b)) = parts else {
            return false;
        };
        self.assign(places, first.0 as usize, a) && self.assign(places, second.0 as usize, b)
    }

    // The node of a sheet with a number, as the sheet's law has it.
    fn node(&self, n: usize) -> Node
        requires { n < length (open_nodes self.now) }
        ensures law { NodeLaw (content_of self.now.sheet.now) n result }
        ensures says { term (open_nodes self.now) n ≡ says (term (open_nodes self.now)) result }
    {
        self.sheet.nodes()[n]
    }

    // The node at a place: its parts are held, and the term at the place is what it says.
    fn page(&self, place: NodeNo) -> Node
        requires { place.0 < length (closed_nodes self.now) }
        ensures below { Below (length (closed_nodes self.now)) result }
        ensures says { term (closed_nodes self.now) place.0 ≡ says (term (closed_nodes self.now)) result }
    {
        self.pages.get(place).unwrap().node
    }

    // Whether the term at a place is this name.
    fn is_name(&self, place: NodeNo, name: LocalName) -> bool
        requires { place.0 < length (closed_nodes self.now) }
        ensures { Decides result (term (closed_nodes self.now) place.0 ≡ name_term name.0) }
    {
        matches!(self.page(place), Node::Name(x) if x == name)
    }

    // The halves of the term at a place, where it is a pair.
    fn halves(&self, place: NodeNo) -> Option<(NodeNo, NodeNo)>
        requires { place.0 < length (closed_nodes self.now) }
        ensures { PartsAt pair (closed_nodes self.now) place.0 result }
    {
        let Node::Pair { left, right } = self.page(place) else {
            return None;
        };
        Some((left, right))
    }

    // Its body and its key, where it is sealed.
    fn sealed(&self, place: NodeNo) -> Option<(NodeNo, NodeNo)>
        requires { place.0 < length (closed_nodes self.now) }
        ensures { PartsAt seal (closed_nodes self.now) place.0 result }
    {
        let Node::Seal { body, key } = self.page(place) else {
            return None;
        };
        Some((body, key))
    }

    // What node n has to be is said of its parts, or of its variable.
    fn settle(
        &self,
        places: &mut [Option<NodeNo>; MOST_NODES],
        values: &mut [Option<NodeNo>; MOST_VARIABLES],
        n: usize,
    ) -> bool
        requires within { n < length (open_nodes self.now) }
        requires places_held { AllHeld (closed_nodes self.now) places.old }
        requires values_held { AllHeld (closed_nodes self.now) values.old }
        ensures places { AllHeld (closed_nodes self.now) places.new }
        ensures values { AllHeld (closed_nodes self.now) values.new }
        ensures settled { let ns = closed_nodes self.now in Settled (open_nodes self.now) (n + 1) (values_in ns values.old) (values_in ns places.old) n result (values_in ns values.new) (values_in ns places.new) }
    {
        let Some(place) = places[n] else {
            return true;
        };
        match self.node(n) {
            Node::Name(name) => self.is_name(place, name),
            Node::Env(_) => unreachable(),
            Node::Var(x) => self.assign(values, x.0 as usize, place),
            Node::Pair { left, right } => self.assign_parts(
                places,
                left,
                right,
                self.halves(place),
            ),
            Node::Seal { body, key } => self.assign_parts(places, body, key, self.sealed(place)),
        }
    }

    // So it is with the nodes below n, down to the last.
    fn settle_below(
        &self,
        places: &mut [Option<NodeNo>; MOST_NODES],
        values: &mut [Option<NodeNo>; MOST_VARIABLES],
        n: usize,
    ) -> bool
        requires within { n ≤ length (open_nodes self.now) }
        requires places_held { AllHeld (closed_nodes self.now) places.old }
        requires values_held { AllHeld (closed_nodes self.now) values.old }
        ensures values { AllHeld (closed_nodes self.now) values.new }
        ensures settled { let ns = closed_nodes self.now in Settled (open_nodes self.now) n (values_in ns values.old) (values_in ns places.old) 0 result (values_in ns values.new) (values_in ns places.new) }
    {
        if n == 0 {
            return true;
        }
        self.settle(places, values, n - 1) && self.settle_below(places, values, n - 1)
    }

    // The table where only this node has a place.
    fn only(&self, node: NodeNo, place: NodeNo) -> [Option<NodeNo>; MOST_NODES]
        requires within { node.0 < 256 }
        requires here { place.0 < length (closed_nodes self.now) }
        ensures held { AllHeld (closed_nodes self.now) result }
        ensures value { let ns = closed_nodes self.now in values_in ns result ≡ bind unvalued node.0 (term ns place.0) }
    {
        let mut places = [None; MOST_NODES];
        places[node.0 as usize] = Some(place);
        places
    }

    // The values under which the term of a node is the term at a place, among which are these.
    pub(crate) fn fit(
        &self,
        values: &[Option<NodeNo>; MOST_VARIABLES],
        node: NodeNo,
        place: NodeNo,
    ) -> Option<[Option<NodeNo>; MOST_VARIABLES]>
        requires node_held { node.0 < length (open_nodes self.now) }
        requires place_held { place.0 < length (closed_nodes self.now) }
        requires values_held { AllHeld (closed_nodes self.now) values.now }
        ensures { let ns = closed_nodes self.now in Fitted ns (values_in ns values.now) (term (open_nodes self.now) node.0) (term ns place.0) result }
    {
        let mut places = self.only(node, place);
        let mut found = *values;
        self.settle_below(&mut places, &mut found, node.0 as usize + 1)
            .then_some(found)
    }
}
