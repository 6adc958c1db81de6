// The calls that every notebook here makes on its pages.
ghost use Rattle.std.specs.Prelude.{◌≡◌, ◌<◌, [], length, IfOk};
ghost use Rattle.terms.specs.Nodes.{Below, Found, node as node_at, says, term};
ghost use Rattle.analysis.specs.Places.{first as first-place};
ghost use Rattle.notebook.specs.Calls.{Put, Noted};
ghost use Rattle.notebooks.specs.Lists.{nodes_of, noted_of};

use crate::noted::Pages;
use notebook::{MOST_NOTES, NoteFault, PutFault};
use pages::PageTable;
use std::alloc::{AllocError, Global};
use terms::{Node, NodeNo};

impl Pages {
    pub(crate) fn new(heap: Global) -> Result<Pages, AllocError>
        ensures { IfOk result (λ p. (nodes_of p ≡ []) × (noted_of p ≡ [])) }
    {
        let table = PageTable::new(heap)?;
        let notes = Vec::with_capacity(heap, MOST_NOTES)?;
        Ok(Pages { table, notes })
    }

    pub(crate) fn clear(&mut self)
        ensures nodes { nodes_of self.new ≡ [] }
        ensures notes { noted_of self.new ≡ [] }
    {
        self.notes.clear();
        self.table.clear();
    }

    // The node at a place: its parts stand before it, and the term at the place is what it says.
    #[tactic(auto, using(pages::proofs::Paging::page_says))]
    pub(crate) fn node(&self, place: NodeNo) -> Node
        requires { place.0 < length (nodes_of self.now) }
        ensures value { result ≡ node_at (nodes_of self.now) place.0 }
        ensures below { Below place.0 result }
        ensures says { term (nodes_of self.now) place.0 ≡ says (term (nodes_of self.now)) result }
    {
        self.table.get(place).unwrap().node
    }

    // The first place that holds the term at a place.
    #[tactic(auto, using(pages::proofs::Paging::first_within))]
    pub(crate) fn first_of(&self, place: NodeNo) -> NodeNo
        requires { place.0 < length (nodes_of self.now) }
        ensures value { result.0 ≡ first-place (nodes_of self.now) (term (nodes_of self.now) place.0) }
        ensures within { result.0 < length (nodes_of self.now) }
    {
        self.table.get(place).unwrap().first
    }

    pub(crate) fn put(&mut self, node: Node) -> Result<NodeNo, PutFault>
        ensures { Put (nodes_of self.old) (noted_of self.old) node result (nodes_of self.new) (noted_of self.new) }
    {
        self.table.put(node)
    }

    pub(crate) fn read(&self, place: NodeNo) -> Option<Node>
        ensures { Found (nodes_of self.now) place.0 result }
    {
        self.table.get(place).map(|page| page.node)
    }

    pub(crate) fn note(&mut self, place: NodeNo) -> Result<(), NoteFault>
        ensures { Noted (nodes_of self.old) (noted_of self.old) place result (nodes_of self.new) (noted_of self.new) }
    {
        if !self.table.holds(place) {
            return Err(NoteFault::NotHeld);
        }
        if self.notes.len() >= MOST_NOTES {
            return Err(NoteFault::Full);
        }
        self.notes.push_reserved(place);
        Ok(())
    }
}
