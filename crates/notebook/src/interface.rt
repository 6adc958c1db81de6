// The interface. Two lists are what a notebook means; nothing else is known of one.
//
// A place is a NodeNo: the position of a node in the notebook's own list, which is a table of nodes as any other. So
// the parts of a node are places already, and what a put answers is a part of a later node as it stands.
ghost use Rattle.std.specs.Prelude.{◌≡◌, ℕ, List, [], IfOk};
ghost use Rattle.terms.specs.Nodes.{Found};
ghost use Rattle.terms.specs.declared.node.Node.{Node};
ghost use Rattle.notebook.specs.Calls.{LawfulLists, Put, Noted, Derivable};

use crate::faults::{NoteFault, PutFault};
use std::alloc::{AllocError, Global};
use terms::{Node, NodeNo};

pub trait Notebook: Sized {
    // the nodes, each at its place
    ghost nodes: { Self → List Node };

    // the places whose terms the environment was given
    ghost noted: { Self → List ℕ };

    // All memory is taken here: no later call can want any.
    fn new(heap: Global) -> Result<Self, AllocError>
        ensures { IfOk result (λ b. (nodes b ≡ []) × (noted b ≡ [])) };

    fn clear(&mut self)
        ensures nodes { nodes self.new ≡ [] }
        ensures noted { noted self.new ≡ [] };

    fn put(&mut self, node: Node) -> Result<NodeNo, PutFault>
        ensures { Put (nodes self.old) (noted self.old) node result (nodes self.new) (noted self.new) };

    fn read(&self, place: NodeNo) -> Option<Node>
        ensures { Found (nodes self.now) place.0 result };

    fn note(&mut self, place: NodeNo) -> Result<(), NoteFault>
        ensures { Noted (nodes self.old) (noted self.old) place result (nodes self.new) (noted self.new) };

    // Whether the term at a place can be put together from the terms at the noted places.
    fn derivable(&self, place: NodeNo) -> bool
        ensures { Derivable (nodes self.now) (noted self.now) place result };

    ghost lists: { (b : Self) → LawfulLists (nodes b) (noted b) };
}
