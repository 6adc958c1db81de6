// The values of the sheet's nodes are placed, each once and as soon as it can be told.
ghost use Rattle.std.specs.Prelude.{◌<◌, ◌≤◌, ◌+◌, length, None, Some, slice_index_or};
ghost use Rattle.std.proofs.Math.Option.{some};
ghost use Rattle.terms.specs.Nodes.{says, term};
ghost use Rattle.sheet.specs.Sheets.{content_of};
ghost use Rattle.notebook.specs.Calls.{Lawful};
ghost use Rattle.notebook.specs.Limits.{most_nodes};
ghost use Rattle.pages.specs.Pages.{nodes_on};
ghost use Rattle.judging.specs.Places.{term_at, values_in};
ghost use Rattle.bench.specs.Places.{KeptIn, count, PlainNode, PlacedRight, said_by, PlacesValue, Swept};

use pages::PageTable;
use sheet::Sheet;
use terms::{Node, NodeNo};

// Places the term of a lawful node, where there is room.
#[tactic(auto, using(crate::proofs::Places::put_ok))]
pub(crate) fn put(pages: &mut PageTable, node: Node) -> NodeNo
    requires lawful { Lawful (length (nodes_on pages.old)) node }
    requires room { length (nodes_on pages.old) < most_nodes }
    ensures { let ns = nodes_on pages.old in PlacesValue ns (some (says (term ns) node)) (Some result) (nodes_on pages.new) }
{
    pages.put(node).unwrap()
}

// Places the value of a node over the places of its parts, where it can be told.
fn place(
    pages: &mut PageTable,
    values: &[Option<NodeNo>; 64],
    placed: &[Option<NodeNo>; 256],
    node: Node,
) -> Option<NodeNo>
    requires plain { PlainNode node }
    requires values_kept { KeptIn (nodes_on pages.old) values.now }
    requires placed_kept { KeptIn (nodes_on pages.old) placed.now }
    requires room { length (nodes_on pages.old) < most_nodes }
    ensures { let ns = nodes_on pages.old in PlacesValue ns (said_by (values_in ns values.now) (λ i. term_at ns (slice_index_or placed.now i None)) node) result (nodes_on pages.new) }
{
    match node {
        Node::Name(_) | Node::Env(_) => Some(put(pages, node)),
        Node::Var(x) => values[x.0 as usize],
        Node::Pair { left, right } => {
            let l = placed[left.0 as usize]?;
            let r = placed[right.0 as usize]?;
            Some(put(pages, Node::Pair { left: l, right: r }))
        }
        Node::Seal { body, key } => {
            let b = placed[body.0 as usize]?;
            let k = placed[key.0 as usize]?;
            Some(put(pages, Node::Seal { body: b, key: k }))
        }
    }
}

// Places the value of each node of the sheet that has one and no place yet. Each turn reads what the turns before it
// placed, so a closure over the places would be no plainer than the loop.
#[tactic(auto, using(crate::proofs::Places::swept_none, crate::proofs::Places::swept_skip, crate::proofs::Places::swept_place, crate::proofs::Places::swept_room, crate::proofs::Places::extends_kept, judging::proofs::Reading::few_nodes, crate::proofs::Places::sheet_plain))]
pub(crate) fn place_all(
    sheet: &Sheet,
    values: &[Option<NodeNo>; 64],
    pages: &mut PageTable,
    placed: &mut [Option<NodeNo>; 256],
)
    requires values_kept { KeptIn (nodes_on pages.old) values.now }
    requires placed_kept { KeptIn (nodes_on pages.old) placed.old }
    requires right { PlacedRight (nodes_on pages.old) (content_of sheet.now).nodes values.now placed.old }
    requires room { length (nodes_on pages.old) ≤ 512 + count placed.old }
    ensures { let ss = (content_of sheet.now).nodes in Swept (nodes_on pages.old) ss values.now placed.old (length ss) (nodes_on pages.new) placed.new }
{
    let nodes = sheet.nodes();
    for i in 0..nodes.len() {
        if placed[i].is_none() {
            placed[i] = place(pages, values, placed, nodes[i]);
        }
    }
}
