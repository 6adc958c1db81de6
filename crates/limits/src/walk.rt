// The steps of a strand are taken in their order, as far as some values satisfy them together.
ghost use Rattle.std.specs.Prelude.{◌≡◌, ℕ, ◌<◌, length, IfOk};
ghost use Rattle.terms.specs.Terms.{Message};
ghost use Rattle.terms.specs.Nodes.{term};
ghost use Rattle.terms.specs.Tables.{nodes_in};
ghost use Rattle.protocol.specs.Strands.{step_of};
ghost use Rattle.sheet.specs.Sheets.{content_of};
ghost use Rattle.matching.specs.Matchings.{nodes_of, bound};
ghost use Rattle.limits.specs.Beginnings.{StepFits, Asked, Taken, LongestOf, strand_steps};

use crate::demands::Demands;
use crate::keys::KeyedNodes;
use matching::Matching;
use protocol::Step;
use sheet::Sheet;
use std::alloc::{AllocError, Global};

// What a step asks: an action that its term be a message, any other that its two sides be equal.
fn ask(nodes: &KeyedNodes, m: &mut Matching, d: Demands, step: Step) -> Option<Demands>
    requires nodes { nodes_of m.old ≡ nodes_in nodes.now.nodes }
    requires fits { StepFits (nodes_in nodes.now.nodes) step }
    requires said { (i : ℕ) → Message (term (nodes_in nodes.now.nodes) i) }
    ensures nodes { nodes_of m.new ≡ nodes_of m.old }
    ensures answer { Asked (nodes_of m.old) (bound m.old) d (step_of (nodes_of m.old) step) (bound m.new) result }
{
    match step {
        Step::Input { variable, .. } => Some(d.with_variable(variable)),
        Step::Output { node, .. } => Some(d.with_message(nodes, node)),
        Step::Open {
            subject: a,
            pattern: b,
        }
        | Step::Split {
            subject: a,
            pattern: b,
        }
        | Step::Same { left: a, right: b } => m.matches(a, b).unwrap().then_some(d),
    }
}

// One step more: none where nothing satisfies it together with those before it. Every action so far is looked at again,
// since a match can make one that was a message none.
fn take(nodes: &KeyedNodes, m: &mut Matching, d: Demands, step: Step) -> Option<Demands>
    requires nodes { nodes_of m.old ≡ nodes_in nodes.now.nodes }
    requires fits { StepFits (nodes_in nodes.now.nodes) step }
    requires said { (i : ℕ) → Message (term (nodes_in nodes.now.nodes) i) }
    ensures nodes { nodes_of m.new ≡ nodes_of m.old }
    ensures answer { Taken (nodes_of m.old) (bound m.old) d (step_of (nodes_of m.old) step) (bound m.new) result }
{
    let asked = ask(nodes, m, d, step)?;
    asked.settle(nodes, m.bindings())
}

// How many steps of a strand can be satisfied together, from the first on.
pub(crate) fn longest(
    heap: Global,
    sheet: &Sheet,
    nodes: &KeyedNodes,
    k: usize,
) -> Result<usize, AllocError>
    requires nodes { nodes_in nodes.now.nodes ≡ (content_of sheet.now).nodes }
    requires strand { k < length (content_of sheet.now).strands }
    ensures { IfOk result (λ n. LongestOf (strand_steps (content_of sheet.now) k) n) }
{
    let mut matching = Matching::open(heap, sheet)?;
    let mut demands = Demands::none();
    let steps = sheet.strands()[k].steps();
    for (n, step) in steps.iter().enumerate() {
        match take(nodes, &mut matching, demands, *step) {
            Some(more) => demands = more,
            None => return Ok(n),
        }
    }
    Ok(steps.len())
}
