// Pairs and seals among the pages.
ghost use Rattle.std.specs.Prelude.{◌<◌, length};
ghost use Rattle.terms.specs.Terms.{pair, seal};
ghost use Rattle.pages.specs.Pages.{nodes_on};
ghost use Rattle.judging.specs.Places.{PartsAt};

use pages::PageTable;
use terms::{Node, NodeNo};

// The halves of a pair.
#[tactic(auto, using(crate::proofs::Shapely::pair_told))]
pub(crate) fn pair_at(pages: &PageTable, place: NodeNo) -> Option<(NodeNo, NodeNo)>
    requires { place.0 < length (nodes_on pages.now) }
    ensures { PartsAt pair (nodes_on pages.now) place.0 result }
{
    match pages.get(place)?.node {
        Node::Pair { left, right } => Some((left, right)),
        Node::Name(_) | Node::Env(_) | Node::Var(_) | Node::Seal { .. } => None,
    }
}

// The body of a seal, and its key.
#[tactic(auto, using(crate::proofs::Shapely::seal_told))]
pub(crate) fn seal_at(pages: &PageTable, place: NodeNo) -> Option<(NodeNo, NodeNo)>
    requires { place.0 < length (nodes_on pages.now) }
    ensures { PartsAt seal (nodes_on pages.now) place.0 result }
{
    match pages.get(place)?.node {
        Node::Seal { body, key } => Some((body, key)),
        Node::Name(_) | Node::Env(_) | Node::Var(_) | Node::Pair { .. } => None,
    }
}
