// Nodes are asked for until nothing is left to ask, and then judged.
ghost use Rattle.terms.specs.Tables.{nodes_in};
ghost use Rattle.needs.specs.Told.{Told};

use crate::answer::Need;
use crate::asked::Asked;
use alike::Alike;
use reach::Reach;
use terms::{NodeNo, NodeTable, VarSet};
use unification::Binding;

// What the need of a node comes down to; none where it is no node of the table.
pub fn need(
    nodes: &NodeTable,
    bindings: &[Binding],
    reached: &Reach,
    alike: &Alike,
    marked: VarSet,
    node: NodeNo,
) -> Option<Need>
    ensures { Told (nodes_in nodes.now) bindings.now reached.now alike.now marked node.0 result }
{
    if !nodes.contains(node) {
        return None;
    }
    let mut asked = Asked::none();
    if let Some(c) = alike.head(node) {
        asked.add(c);
    }
    while let Some(c) = asked.next(nodes, reached, alike, marked) {
        asked.add(c);
    }
    match asked.judge_all(nodes, reached, alike, marked) {
        Some(w) => Some(w),
        None => Some(Need::Met(asked.variables(nodes, marked))),
    }
}
