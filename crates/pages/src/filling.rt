// A table of pages is filled from the front, and emptied.
ghost use Rattle.std.specs.Prelude.{◌≡◌, ◌<◌, ℕ, List, [], length, IfOk, Decides};
ghost use Rattle.terms.specs.Nodes.{Below, says, term};
ghost use Rattle.analysis.specs.Places.{first as first-place};
ghost use Rattle.notebook.specs.Calls.{Lawful, Put};
ghost use Rattle.pages.specs.Pages.{nodes_on};

use crate::page::{Page, PageTable};
use notebook::{ENV_NAMES, LOCAL_NAMES, MOST_NODES, PutFault};
use std::alloc::{AllocError, Global};
use terms::{Node, NodeNo};

impl PageTable {
    // All memory is taken here.
    #[tactic(auto, using(crate::proofs::Paging::none_lawful, crate::proofs::Paging::none_firsts))]
    pub fn new(heap: Global) -> Result<PageTable, AllocError>
        ensures { IfOk result (λ t. nodes_on t ≡ []) }
    {
        let list = Vec::with_capacity(heap, MOST_NODES)?;
        Ok(PageTable { list })
    }

    #[tactic(auto, using(crate::proofs::Paging::none_lawful, crate::proofs::Paging::none_firsts))]
    pub fn clear(&mut self)
        ensures { nodes_on self.new ≡ [] }
    {
        self.list.clear();
    }

    // Whether a node may stand at the next place.
    fn is_lawful(&self, node: Node) -> bool
        ensures { Decides result (Lawful (length (nodes_on self.now)) node) }
    {
        match node {
            Node::Name(name) => name.0 < LOCAL_NAMES,
            Node::Env(name) => name.0 < ENV_NAMES,
            Node::Var(_) => false,
            Node::Pair { left: a, right: b } | Node::Seal { body: a, key: b } => self.holds(a)
                && self.holds(b),
        }
    }

    // Whether two held places hold one term. `same` looks whether they are held; here that is known, and this is asked of each
    // page there is whenever a node is put.
    #[tactic(auto, using(crate::proofs::Paging::page_first, crate::proofs::Rows::places_told))]
    fn same_place(&self, a: NodeNo, b: NodeNo) -> bool
        requires a_held { a.0 < length (nodes_on self.now) }
        requires b_held { b.0 < length (nodes_on self.now) }
        ensures { Decides result (term (nodes_on self.now) a.0 ≡ term (nodes_on self.now) b.0) }
    {
        self.list[a.0 as usize].first == self.list[b.0 as usize].first
    }

    // Whether two nodes over these places are one term. This is not the derived equality: places are compared by their
    // terms.
    fn same_node(&self, a: Node, b: Node) -> bool
        requires a_below { Below (length (nodes_on self.now)) a }
        requires b_below { Below (length (nodes_on self.now)) b }
        ensures { Decides result (says (term (nodes_on self.now)) a ≡ says (term (nodes_on self.now)) b) }
    {
        match (a, b) {
            (Node::Name(x), Node::Name(y)) => x == y,
            (Node::Env(x), Node::Env(y)) => x == y,
            (Node::Var(x), Node::Var(y)) => x == y,
            (Node::Pair { left: c, right: d }, Node::Pair { left: e, right: f })
            | (Node::Seal { body: c, key: d }, Node::Seal { body: e, key: f }) => {
                self.same_place(c, e) && self.same_place(d, f)
            }
            _ => false,
        }
    }

    // The first place of the term of a node, which is its own where the term is new.
    fn first_place(&self, node: Node) -> NodeNo
        requires below { Below (length (nodes_on self.now)) node }
        ensures { result.0 ≡ first-place (nodes_on self.now) (says (term (nodes_on self.now)) node) }
    {
        let found = self
            .list
            .iter()
            .position(|page| self.same_node(page.node, node));
        NodeNo(found.unwrap_or(self.list.len()) as u16)
    }

    // A node is put as in a notebook, whatever is noted there.
    pub fn put(&mut self, node: Node) -> Result<NodeNo, PutFault>
        ensures { (noted : List ℕ) → Put (nodes_on self.old) noted node result (nodes_on self.new) noted }
    {
        if !self.is_lawful(node) {
            return Err(PutFault::Unlawful);
        }
        let place = self.list.len();
        if place >= MOST_NODES {
            return Err(PutFault::Full);
        }
        let first = self.first_place(node);
        self.list.push_reserved(Page { node, first });
        Ok(NodeNo(place as u16))
    }
}
