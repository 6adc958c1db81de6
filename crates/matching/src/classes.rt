// Classes of nodes that have to be equal, as links from each node to its parent. Nodes are shared and known by their numbers,
// so the links are numbers too.
ghost use Rattle.std.specs.Prelude.{◌≡◌, ℕ, ◌+◌, ◌<◌, ◌≤◌, ◌⊎◌, [], ◌∷◌, ◌++◌, map, length, IfOk, vec_len, vec_capacity, slice_set};
ghost use Rattle.std.specs.List.{range_with_len};
ghost use Rattle.stack.specs.Waiting.{waiting, room};
ghost use Rattle.unification.specs.Classes.{up, Own, Lower, Traced, Known, United};
ghost use Rattle.unification.specs.Steps.{heads};
ghost use Rattle.unification.proofs.Joining.{Way};

use stack::Stack;
use std::alloc::{AllocError, Global};
use terms::NodeNo;
use unification::Ask;

#[derive(Drop)]
pub struct Classes {
    // a root is its own parent
    parents: Vec<NodeNo>,
    // the nodes that may have another parent than themselves
    linked: Vec<NodeNo>,
    ghost lower: { Lower parents.items },
    ghost traced: { Traced parents.items linked.items },
    ghost counted: { vec_len linked + heads 0 parents.items ≤ vec_len parents },
    ghost listed: { (k : ℕ) → k < length linked.items → up linked.items k < vec_len parents },
    ghost roomy: { vec_len parents ≤ vec_capacity linked },
}

impl Classes {
    // Each of so many nodes a class of its own. That each has a number is asked once, in `Matching::over`.
    pub(crate) fn new(heap: Global, nodes: usize) -> Result<Classes, AllocError>
        requires { nodes ≤ 65536 }
        ensures { IfOk result (λ t. (vec_len t.parents ≡ nodes) × (t.linked.items ≡ [])) }
    {
        let parents = first_nodes(heap, nodes)?;
        let linked = Vec::with_capacity(heap, nodes)?;
        Ok(Classes { parents, linked })
    }

    // The root of the class of n.
    fn find(&self, n: NodeNo) -> NodeNo
        requires { n.0 < vec_len self.now.parents }
        ensures low { result.0 ≤ n.0 }
        ensures root { up self.now.parents.items result.0 ≡ result.0 }
        ensures way { Way self.now.parents.items n.0 result.0 }
    {
        let mut here = n;
        loop {
            let parent = self.parents[here.0 as usize];
            if parent == here {
                return here;
            }
            here = parent;
        }
    }

    // Makes a root the child of a smaller node.
    fn link(&mut self, root: NodeNo, parent: NodeNo)
        requires within { root.0 < vec_len self.old.parents }
        requires root { up self.old.parents.items root.0 ≡ root.0 }
        requires lower { parent.0 < root.0 }
        ensures { self.new.parents.items ≡ slice_set self.old.parents.items root.0 parent }
    {
        self.linked.push_reserved(root);
        self.parents[root.0 as usize] = parent;
    }

    // Makes the classes of the two nodes of a pair one; then their parts wait, the second on top.
    pub(crate) fn join(&mut self, asks: &mut Stack<'_, Ask>, w: Ask, first: Ask, second: Ask)
        requires left { w.left.0 < vec_len self.old.parents }
        requires right { w.right.0 < vec_len self.old.parents }
        requires free { length (waiting asks.old) + 1 + heads 0 self.old.parents.items ≤ room asks.old }
        ensures joined { Known self.old.parents.items (waiting asks.old) w.left.0 w.right.0 self.new.parents.items (waiting asks.new) ⊎ United self.old.parents.items (waiting asks.old) w.left.0 w.right.0 first second self.new.parents.items (waiting asks.new) }
        ensures size { room asks.new ≡ room asks.old }
    {
        let i = self.find(w.left);
        let j = self.find(w.right);
        if i == j {
            return;
        }
        wait(asks, first);
        wait(asks, second);
        if i < j {
            self.link(j, i);
        } else {
            self.link(i, j);
        }
    }

    // Makes every node a class of its own again: only between matches is that so, and no type says it but the matching's.
    pub(crate) fn reset(&mut self)
        ensures size { vec_len self.new.parents ≡ vec_len self.old.parents }
        ensures none { self.new.linked.items ≡ [] }
    {
        while let Some(n) = self.linked.pop() {
            self.parents[n.0 as usize] = n;
        }
    }
}

// The numbers of so many nodes, in their order.
fn first_nodes(heap: Global, n: usize) -> Result<Vec<NodeNo>, AllocError>
    requires { n ≤ 65536 }
    ensures items { IfOk result (λ v. v.items ≡ map (λ i. record { 0 = i }) (range_with_len 0 n)) }
    ensures size { IfOk result (λ v. vec_len v ≡ n) }
{
    (0..n).map(|i| NodeNo(i as u16)).collect(heap)
}

// One pair more waits; there is room for it.
pub(crate) fn wait(asks: &mut Stack<'_, Ask>, a: Ask)
    requires { length (waiting asks.old) < room asks.old }
    ensures items { waiting asks.new ≡ waiting asks.old ++ (a ∷ []) }
    ensures size { room asks.new ≡ room asks.old }
{
    asks.push(a).unwrap();
}
