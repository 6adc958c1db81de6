// A table of nodes and its clone.
use crate::tests::support::*;
use std::test::Fail;
use terms::{NodeNo, VarSet, Variable};

#[test]
fn a_clone_is_a_table_of_its_own(rt: HostRuntime) -> Result<(), Fail> {
    let nodes = [var(0), name(0), pair(0, 1)];
    let mut table = table_of(rt.alloc(), &nodes)?;
    let mut clone = table.clone()?;
    assert_eq!(rt; clone.as_slice(), nodes.as_slice());
    assert_eq!(rt;
        clone.variables(NodeNo(2)),
        Some(VarSet::empty().with(Variable(0)))
    );
    // each is changed without the other
    table.push(pair(2, 2))?;
    assert_eq!(rt; table.get(NodeNo(3)), Some(pair(2, 2)));
    assert_eq!(rt; clone.as_slice(), nodes.as_slice());
    clone.push(seal(2, 1))?;
    assert_eq!(rt; clone.get(NodeNo(3)), Some(seal(2, 1)));
    assert_eq!(rt; table.get(NodeNo(3)), Some(pair(2, 2)));
    Ok(())
}
