// The notebook that works derivability out at each question.
ghost use Rattle.notebooks.specs.Lists.{nodes_of, noted_of};
ghost use Rattle.notebooks.specs.Paging.{pages_lawful};

use crate::marks::Marks;
use crate::noted::Pages;
use notebook::{MOST_NODES, NoteFault, Notebook, PutFault};
use std::alloc::{AllocError, Global};
use terms::{Node, NodeNo};

#[derive(Drop)]
pub struct AskingNotebook {
    pages: Pages,
}

impl Notebook for AskingNotebook {
    ghost nodes = { λ b. nodes_of b.pages };

    ghost noted = { λ b. noted_of b.pages };

    ghost lists = { λ b. pages_lawful b.pages };

    fn new(heap: Global) -> Result<AskingNotebook, AllocError> {
        let pages = Pages::new(heap)?;
        Ok(AskingNotebook { pages })
    }

    fn clear(&mut self) {
        self.pages.clear();
    }

    fn put(&mut self, node: Node) -> Result<NodeNo, PutFault> {
        self.pages.put(node)
    }

    fn read(&self, place: NodeNo) -> Option<Node> {
        self.pages.read(place)
    }

    fn note(&mut self, place: NodeNo) -> Result<(), NoteFault> {
        self.pages.note(place)
    }

    fn derivable(&self, place: NodeNo) -> bool {
        if !self.pages.table.holds(place) {
            return false;
        }
        // as many marks as there can be nodes: a question takes no memory
        let mut known = [false; MOST_NODES];
        let mut marks = Marks {
            pages: &self.pages,
            known: &mut known[..self.pages.table.len()],
        };
        marks.mark_noted();
        marks.settle();
        marks.seen().composes(place)
    }
}
