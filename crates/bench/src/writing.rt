// What the caller writes.
ghost use Rattle.std.specs.Prelude.{◌≡◌, length, OnErr};
ghost use Rattle.pages.specs.Pages.{nodes_on};
ghost use Rattle.playing.specs.Calls.{Wrote};
ghost use Rattle.bench.specs.Places.{Extends};
ghost use Rattle.bench.specs.Steps.{PageOf, Turned};
ghost use Rattle.bench.specs.Tables.{sheet_in, nodes_of, situation};

use crate::placing::put;
use crate::tables::Tables;
use notebook::ENV_NAMES;
use playing::WriteFault;
use terms::{Node, NodeNo};

// The most places that a caller can write.
const MOST_WRITTEN: usize = 512;

impl Tables {
    // The page of what is written at a place.
    #[tactic(auto, using(crate::proofs::Written::page_of))]
    pub(crate) fn page_of(&self, place: NodeNo) -> Option<NodeNo>
        ensures { PageOf (nodes_of self.now) self.now.written.items place.0 result }
    {
        self.written.get(place.0 as usize).copied()
    }

    // A node over what is written as one over the pages.
    fn turned(&self, node: Node) -> Option<Node>
        ensures { Turned (length (sheet_in self.now).names) (nodes_of self.now) self.now.written.items node result }
    {
        match node {
            Node::Name(name) if (name.0 as usize) < self.sheet.names().len() => Some(node),
            Node::Env(name) if name.0 < ENV_NAMES => Some(node),
            Node::Name(_) | Node::Env(_) | Node::Var(_) => None,
            Node::Pair { left, right } => Some(Node::Pair {
                left: self.page_of(left)?,
                right: self.page_of(right)?,
            }),
            Node::Seal { body, key } => {
                let body = self.page_of(body)?;
                let key = self.page_of(key)?;
                if !self.pages.is_name(key) {
                    return None;
                }
                Some(Node::Seal { body, key })
            }
        }
    }

    pub(crate) fn write(&mut self, node: Node) -> Result<NodeNo, WriteFault>
        ensures wrote { Wrote (length (sheet_in self.old).names) (situation self.old) node result (situation self.new) }
        ensures sheet { sheet_in self.new ≡ sheet_in self.old }
        ensures grown { Extends (nodes_of self.old) (nodes_of self.new) }
        ensures run { self.new.run.items ≡ self.old.run.items }
        ensures kept { OnErr result (nodes_of self.new ≡ nodes_of self.old) }
    {
        let node = self.turned(node).ok_or(WriteFault::Unlawful)?;
        let place = self.written.len();
        if place >= MOST_WRITTEN {
            return Err(WriteFault::Full);
        }
        let page = put(&mut self.pages, node);
        self.written.push_reserved(page);
        Ok(NodeNo(place as u16))
    }
}
