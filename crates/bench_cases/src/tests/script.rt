// Scripts: calls of a bench with the answers that they are to get.
use bench::Bench;
use notebook::Notebook;
use notebooks::{AskingNotebook, KeepingNotebook};
use playing::{StepFault, WriteFault};
use protocol::Direction;
use sheet::Sheet;
use sheet_cases::{Entry, SheetFile};
use std::alloc::Global;
use std::process::Abort;
use std::test::Fail;
use terms::{EnvName, Label, LocalName, Node, NodeNo, StrandNo, Variable};

#[derive(Clone, Copy)]
pub enum Step {
    // the node is written, and its place answered
    Writes(Node, u16),
    // the node is refused by a number, which is what is tested; the same below
    WriteRefused(Node, u16),
    // a strand and a place
    Feeds(u16, u16),
    FeedRefused(u16, u16, u16),
    Moves(u16),
    MoveRefused(u16, u16),
    // the last action of the run: its label, and the node of its term
    Came(u16, Node),
    Went(u16, Node),
    // how many actions the run has
    Acted(usize),
}

// Nodes by their numbers. Each crate of tests has its own: they share only `terms`, where no other caller needs these.
pub(crate) fn name(n: u16) -> Node {
    Node::Name(LocalName(n))
}

pub(crate) fn env(n: u16) -> Node {
    Node::Env(EnvName(n))
}

pub(crate) fn var(n: u16) -> Node {
    Node::Var(Variable(n))
}

pub(crate) fn pair(left: u16, right: u16) -> Node {
    Node::Pair {
        left: NodeNo(left),
        right: NodeNo(right),
    }
}

pub(crate) fn seal(body: u16, key: u16) -> Node {
    Node::Seal {
        body: NodeNo(body),
        key: NodeNo(key),
    }
}

pub(crate) fn read_sheet(heap: Global, file: &SheetFile) -> Result<Sheet, Fail> {
    let mut sheet = Sheet::new(heap)?;
    sheet.read(heap, file.as_bytes())?;
    Ok(sheet)
}

pub(crate) fn sheet_of(heap: Global, entries: &[Entry]) -> Result<Sheet, Fail> {
    let mut file = SheetFile::new(heap);
    file.entries(entries)?;
    read_sheet(heap, &file)
}

fn ends_with<N: Notebook + Drop>(
    bench: &Bench<N>,
    direction: Direction,
    label: u16,
    node: Node,
) -> bool {
    match bench.actions().last() {
        None => false,
        Some(action) => {
            action.direction == direction
                && action.label == Label(label)
                && bench.node(action.node) == Some(node)
        }
    }
}

// A step is data, a row of which is a script; so there is a match, and no function in a row.
fn holds<N: Notebook + Drop>(bench: &mut Bench<N>, step: Step) -> bool {
    match step {
        Step::Writes(node, place) => bench.write(node) == Ok(NodeNo(place)),
        Step::WriteRefused(node, number) => {
            bench.write(node).map_err(WriteFault::number) == Err(number)
        }
        Step::Feeds(strand, place) => bench.feed(StrandNo(strand), NodeNo(place)) == Ok(()),
        Step::FeedRefused(strand, place, number) => {
            bench
                .feed(StrandNo(strand), NodeNo(place))
                .map_err(StepFault::number)
                == Err(number)
        }
        Step::Moves(strand) => bench.make_move(StrandNo(strand)) == Ok(()),
        Step::MoveRefused(strand, number) => {
            bench.make_move(StrandNo(strand)).map_err(StepFault::number) == Err(number)
        }
        Step::Came(label, node) => ends_with(bench, Direction::Input, label, node),
        Step::Went(label, node) => ends_with(bench, Direction::Output, label, node),
        Step::Acted(count) => bench.actions().len() == count,
    }
}

// How many actions a step may add to the run.
fn most_added(step: Step) -> usize {
    match step {
        Step::Feeds(_, _) | Step::Moves(_) => 1,
        _ => 0,
    }
}

// What every case needs: the handle that ends it where it fails, and memory.
#[derive(Drop)]
pub struct Tester<'a, R> {
    pub rt: &'a R,
    pub heap: Global,
}

impl<'a, R: AllocGlobal> Tester<'a, R> {
    pub(crate) fn new(rt: &'a R) -> Tester<'a, R> {
        Tester {
            rt,
            heap: rt.alloc(),
        }
    }
}

impl<R: Abort> Tester<'_, R> {
    // Follows a script on a bench over a notebook of a kind, and says at which step an answer is another. No step takes an
    // action of the run back, and what is refused adds none.
    pub(crate) fn follow<N: Notebook + Drop>(
        &self,
        kind: &str,
        bench: &mut Bench<N>,
        steps: &[Step],
    ) -> Result<(), Fail> {
        for (i, step) in steps.iter().enumerate() {
            let before = bench.actions().to_vec(self.heap)?;
            assert!(self.rt; holds(bench, *step), "{kind}, step {i}");
            let after = bench.actions();
            let kept = after.starts_with(&before)
                && after.len() - before.len() <= most_added(*step);
            assert!(self.rt; kept, "{kind}, the run at step {i}");
        }
        Ok(())
    }

    fn follow_new<N: Notebook + Drop>(
        &self,
        kind: &str,
        sheet: &Sheet,
        steps: &[Step],
    ) -> Result<(), Fail> {
        let mut bench = Bench::open(self.heap, sheet, N::new(self.heap)?)?;
        self.follow(kind, &mut bench, steps)
    }

    // Follows a script on a new bench of a sheet over each notebook.
    pub(crate) fn on_each(&self, entries: &[Entry], steps: &[Step]) -> Result<(), Fail> {
        let sheet = sheet_of(self.heap, entries)?;
        self.follow_new::<AskingNotebook>("asking", &sheet, steps)?;
        self.follow_new::<KeepingNotebook>("keeping", &sheet, steps)
    }
}
