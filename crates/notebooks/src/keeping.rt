// The notebook that keeps the parts of what was noted, so that a question only puts together.
ghost use Rattle.std.specs.Prelude.{◌≤◌, vec_capacity};
ghost use Rattle.analysis.specs.Parts.{Parts};
ghost use Rattle.notebook.specs.Limits.{most_nodes};
ghost use Rattle.notebooks.specs.Lists.{nodes_of, noted_of};
ghost use Rattle.notebooks.specs.Paging.{pages_lawful};

use crate::marks::Known;
use crate::noted::Pages;
use notebook::{MOST_NODES, NoteFault, Notebook, PutFault};
use std::alloc::{AllocError, Global};
use terms::{Node, NodeNo};

#[derive(Drop)]
pub struct KeepingNotebook {
    pages: Pages,
    // marks on the first places of the parts; not in the pages, since the other notebook has none
    known: Vec<bool>,
    ghost room: { most_nodes ≤ vec_capacity known },
    ghost parts: { Parts (nodes_of pages) (noted_of pages) known.items },
}

impl Notebook for KeepingNotebook {
    ghost nodes = { λ b. nodes_of b.pages };

    ghost noted = { λ b. noted_of b.pages };

    ghost lists = { λ b. pages_lawful b.pages };

    fn new(heap: Global) -> Result<KeepingNotebook, AllocError> {
        let pages = Pages::new(heap)?;
        let known = Vec::with_capacity(heap, MOST_NODES)?;
        Ok(KeepingNotebook { pages, known })
    }

    fn clear(&mut self) {
        self.pages.clear();
        self.known.clear();
    }

    fn put(&mut self, node: Node) -> Result<NodeNo, PutFault> {
        let place = self.pages.put(node)?;
        self.known.push_reserved(false);
        Ok(place)
    }

    fn read(&self, place: NodeNo) -> Option<Node> {
        self.pages.read(place)
    }

    fn note(&mut self, place: NodeNo) -> Result<(), NoteFault> {
        self.pages.note(place)?;
        self.pages.learn(self.known.as_mut_slice(), place);
        Ok(())
    }

    fn derivable(&self, place: NodeNo) -> bool {
        if !self.pages.table.holds(place) {
            return false;
        }
        let known = Known {
            pages: &self.pages,
            known: &self.known,
        };
        known.composes(place)
    }
}
