// A page for each node.
ghost use Rattle.std.specs.Prelude.{◌≡◌, ◌≤◌, vec_len, vec_capacity};
ghost use Rattle.analysis.specs.Places.{firsts};
ghost use Rattle.notebook.specs.Limits.{most_nodes};
ghost use Rattle.pages.specs.Columns.{AllLawful, AllLawful-prop, nodes_in, firsts_in};

use terms::{Node, NodeNo};

#[derive(Clone, Copy, Debug, PartialEq, Eq)]
pub struct Page {
    pub node: Node,
    // the first place that holds the node's term
    pub first: NodeNo,
}

// No NodeTable, since a push there may want memory, and a notebook takes all of its own when it is made.
#[derive(Drop)]
pub struct PageTable {
    pub(crate) list: Vec<Page>,
    ghost room: { most_nodes ≤ vec_capacity list },
    ghost few: { vec_len list ≤ most_nodes },
    ghost lawful: { AllLawful (nodes_in list.items) } by { AllLawful-prop (nodes_in list.items) },
    ghost places: { firsts_in list.items ≡ firsts (nodes_in list.items) },
}
