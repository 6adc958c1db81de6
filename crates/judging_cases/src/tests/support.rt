// A sheet, pages and runs over them.
use judging::judge;
use notebook::PutFault;
use pages::PageTable;
use playing::Verdict;
use protocol::{Action, Direction};
use sheet::Sheet;
use sheet_cases::{Entry, SheetFile};
use std::alloc::Global;
use std::process::Abort;
use std::test::Fail;
use terms::{Label, LocalName, Node, NodeNo};

pub(crate) fn name(n: u16) -> Node {
    Node::Name(LocalName(n))
}

pub(crate) fn pair(left: u16, right: u16) -> Node {
    Node::Pair {
        left: NodeNo(left),
        right: NodeNo(right),
    }
}

pub(crate) fn seal(body: u16, key: u16) -> Node {
    Node::Seal {
        body: NodeNo(body),
        key: NodeNo(key),
    }
}

pub(crate) fn output(label: u16, place: u16) -> Action {
    Action {
        direction: Direction::Output,
        label: Label(label),
        node: NodeNo(place),
    }
}

pub(crate) fn input(label: u16, place: u16) -> Action {
    Action {
        direction: Direction::Input,
        label: Label(label),
        node: NodeNo(place),
    }
}

pub(crate) fn sheet_of(heap: Global, entries: &[Entry]) -> Result<Sheet, Fail> {
    let mut file = SheetFile::new(heap);
    file.entries(entries)?;
    let mut sheet = Sheet::new(heap)?;
    sheet.read(heap, file.as_bytes())?;
    Ok(sheet)
}

pub(crate) fn pages_of(heap: Global, nodes: &[Node]) -> Result<PageTable, Fail> {
    let mut pages = PageTable::new(heap)?;
    for n in nodes {
        pages.put(*n)?;
    }
    Ok(pages)
}

// a run of messages, and its verdict
#[derive(Clone, Copy)]
pub(crate) struct Case<'a>(pub &'a [Action], pub Verdict);

pub(crate) fn expect(
    rt: &impl Abort,
    sheet: &Sheet,
    pages: &PageTable,
    cases: &[Case],
) -> Result<(), Fail> {
    for c in cases {
        assert_eq!(rt; judge(sheet, pages, c.0), Some(c.1));
    }
    Ok(())
}
