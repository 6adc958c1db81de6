// The variables that the patterns of opens and splits bind.
ghost use Rattle.std.specs.Prelude.{◌<◌, length};
ghost use Rattle.terms.specs.Nodes.{node as node_at};
ghost use Rattle.protocol.specs.Lawful.{OpenPattern, SplitPattern};
ghost use Rattle.sheet.specs.Sheets.{content_of};
ghost use Rattle.bench.specs.Effects.{OpenedBy, SplitBy};

use sheet::Sheet;
use terms::{Node, NodeNo, Variable};

// The variable under the seal, and the key.
#[tactic(auto, using(crate::proofs::Patterned::opened_by))]
pub(crate) fn open_pattern(sheet: &Sheet, pattern: NodeNo) -> Option<(Variable, NodeNo)>
    requires held { pattern.0 < length (content_of sheet.now).nodes }
    requires lawful { let ss = (content_of sheet.now).nodes in OpenPattern ss (node_at ss pattern.0) }
    ensures { OpenedBy (content_of sheet.now).nodes pattern.0 result }
{
    let nodes = sheet.nodes();
    let Node::Seal { body, key } = nodes[pattern.0 as usize] else {
        return None;
    };
    let Node::Var(variable) = nodes[body.0 as usize] else {
        return None;
    };
    Some((variable, key))
}

// The variables for the halves.
#[tactic(auto, using(crate::proofs::Patterned::split_by))]
pub(crate) fn split_pattern(sheet: &Sheet, pattern: NodeNo) -> Option<(Variable, Variable)>
    requires held { pattern.0 < length (content_of sheet.now).nodes }
    requires lawful { let ss = (content_of sheet.now).nodes in SplitPattern ss (node_at ss pattern.0) }
    ensures { SplitBy (content_of sheet.now).nodes pattern.0 result }
{
    let nodes = sheet.nodes();
    let Node::Pair { left, right } = nodes[pattern.0 as usize] else {
        return None;
    };
    let Node::Var(x) = nodes[left.0 as usize] else {
        return None;
    };
    let Node::Var(y) = nodes[right.0 as usize] else {
        return None;
    };
    Some((x, y))
}
