// Scripts: calls with the replies that they are to get.
use notebook::{NoteFault, Notebook, PutFault};
use notebooks::{AskingNotebook, KeepingNotebook};
use std::alloc::Global;
use std::process::Abort;
use std::test::Fail;
use terms::{EnvName, LocalName, Node, NodeNo, Variable};

#[derive(Clone, Copy)]
pub enum Step {
    // the node is put, and its place answered
    Puts(Node, u16),
    // the node is refused by a number, which is what is tested
    PutRefused(Node, u16),
    Notes(u16),
    NoteRefused(u16, u16),
    Yes(u16),
    No(u16),
    Holds(u16, Node),
    Absent(u16),
    Clears,
}

// Nodes by their numbers. Each crate of tests has its own: they share only `terms`, where no other caller needs these.
pub(crate) fn name(n: u16) -> Node {
    Node::Name(LocalName(n))
}

pub(crate) fn env(n: u16) -> Node {
    Node::Env(EnvName(n))
}

pub(crate) fn var(n: u16) -> Node {
    Node::Var(Variable(n))
}

pub(crate) fn pair(left: u16, right: u16) -> Node {
    Node::Pair {
        left: NodeNo(left),
        right: NodeNo(right),
    }
}

pub(crate) fn seal(body: u16, key: u16) -> Node {
    Node::Seal {
        body: NodeNo(body),
        key: NodeNo(key),
    }
}

// A step is data, a row of which is a script; so there is a match, and no function in a row.
fn holds<N: Notebook>(book: &mut N, step: Step) -> bool {
    match step {
        Step::Puts(node, place) => book.put(node) == Ok(NodeNo(place)),
        Step::PutRefused(node, number) => book.put(node).map_err(PutFault::number) == Err(number),
        Step::Notes(place) => book.note(NodeNo(place)) == Ok(()),
        Step::NoteRefused(place, number) => {
            book.note(NodeNo(place)).map_err(NoteFault::number) == Err(number)
        }
        Step::Yes(place) => book.derivable(NodeNo(place)),
        Step::No(place) => !book.derivable(NodeNo(place)),
        Step::Holds(place, node) => book.read(NodeNo(place)) == Some(node),
        Step::Absent(place) => book.read(NodeNo(place)) == None,
        Step::Clears => {
            book.clear();
            true
        }
    }
}

// What every case needs: the handle that ends it where it fails, and memory. The reader's tests have the like, in a crate
// of their own: one more crate for both would be longer.
#[derive(Drop)]
pub struct Tester<'a, R> {
    pub rt: &'a R,
    pub heap: Global,
}

impl<'a, R: AllocGlobal> Tester<'a, R> {
    pub fn new(rt: &'a R) -> Tester<'a, R> {
        Tester {
            rt,
            heap: rt.alloc(),
        }
    }
}

impl<R: Abort> Tester<'_, R> {
    // Follows a script on a notebook of a kind, and says at which step a reply is another.
    pub fn follow<N: Notebook>(
        &self,
        kind: &str,
        book: &mut N,
        steps: &[Step],
    ) -> Result<(), Fail> {
        for (i, step) in steps.iter().enumerate() {
            assert!(self.rt; holds(book, *step), "{kind}, step {i}");
        }
        Ok(())
    }

    fn follow_new<N: Notebook + Drop>(&self, kind: &str, steps: &[Step]) -> Result<(), Fail> {
        let mut book = N::new(self.heap)?;
        self.follow(kind, &mut book, steps)
    }

    // Follows a script on a new notebook of each kind.
    pub fn on_each(&self, steps: &[Step]) -> Result<(), Fail> {
        self.follow_new::<AskingNotebook>("asking", steps)?;
        self.follow_new::<KeepingNotebook>("keeping", steps)
    }
}
