// One row of calls on two notebooks.
use notebook::{Call, Notebook, Reply, agree};
use notebooks::{AskingNotebook, KeepingNotebook};
use std::test::Fail;
use terms::{LocalName, Node, NodeNo};

#[test]
fn two_notebooks_agree(rt: HostRuntime) -> Result<(), Fail> {
    let calls = [
        Call::Put(Node::Name(LocalName(0))),
        Call::Put(Node::Name(LocalName(1))),
        Call::Put(Node::Seal {
            body: NodeNo(0),
            key: NodeNo(1),
        }),
        Call::Note(NodeNo(2)),
        Call::Derivable(NodeNo(0)),
        Call::Note(NodeNo(1)),
        Call::Derivable(NodeNo(0)),
    ];
    let mut asking = AskingNotebook::new(rt.alloc())?;
    let mut keeping = KeepingNotebook::new(rt.alloc())?;
    let (first, second) = agree(rt.alloc(), &mut asking, &mut keeping, &calls)?;
    assert!(rt; first.len() == 7);
    assert!(rt; second.len() == 7);
    assert_eq!(rt; first[4], Reply::Derivable(false));
    assert_eq!(rt; second[4], Reply::Derivable(false));
    assert_eq!(rt; first[6], Reply::Derivable(true));
    assert_eq!(rt; second[6], Reply::Derivable(true));
    Ok(())
}
