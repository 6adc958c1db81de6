// Rows of calls on any notebook, and that all notebooks answer them alike.
ghost use Rattle.std.specs.Prelude.{◌≡◌, ◌≤◌, [], length, vec_capacity, IfOk, OnErr};
ghost use Rattle.notebook.specs.Replies.{Replies, Plays, Unchanged, Agreed, OnePlay};

use crate::faults::{NoteFault, PutFault};
use crate::interface::Notebook;
use std::alloc::{AllocError, Global};
use terms::{Node, NodeNo};

#[derive(Clone, Copy, Debug, PartialEq, Eq)]
pub enum Call {
    Clear,
    Put(Node),
    Read(NodeNo),
    Note(NodeNo),
    Derivable(NodeNo),
}

#[derive(Clone, Copy, Debug, PartialEq, Eq)]
pub enum Reply {
    Cleared,
    Put(Result<NodeNo, PutFault>),
    Read(Option<Node>),
    Note(Result<(), NoteFault>),
    Derivable(bool),
}

// A call is data, since the definitions speak of rows of calls; so there is a match, and no function in a row.
fn answer<N: Notebook>(book: &mut N, one: Call) -> Reply
    ensures { Replies one (N.Notebook.nodes book.old) (N.Notebook.noted book.old) result (N.Notebook.nodes book.new) (N.Notebook.noted book.new) }
{
    match one {
        Call::Clear => {
            book.clear();
            Reply::Cleared
        }
        Call::Put(node) => Reply::Put(book.put(node)),
        Call::Read(place) => Reply::Read(book.read(place)),
        Call::Note(place) => Reply::Note(book.note(place)),
        Call::Derivable(place) => Reply::Derivable(book.derivable(place)),
    }
}

// Clears a notebook, makes the calls on it in turn, and writes its replies to a list that has room for them.
#[tactic(auto, using(crate::proofs::Once::plays_none, crate::proofs::Once::plays_next))]
fn play<N: Notebook>(book: &mut N, calls: &[Call], out: &mut Vec<Reply>)
    requires empty { out.old.items ≡ [] }
    requires room { length calls.now ≤ vec_capacity out.old }
    ensures { Plays calls.now [] [] out.new.items (N.Notebook.nodes book.new) (N.Notebook.noted book.new) }
{
    book.clear();
    for one in calls {
        let reply = answer(book, *one);
        out.push_reserved(reply);
    }
}

// Clears a notebook, makes the calls on it in turn, and answers its replies.
pub fn replies<N: Notebook>(
    heap: Global,
    book: &mut N,
    calls: &[Call],
) -> Result<Vec<Reply>, AllocError>
    ensures plays { IfOk result (λ v. Plays calls.now [] [] v.items (N.Notebook.nodes book.new) (N.Notebook.noted book.new)) }
    ensures kept { OnErr result (Unchanged (N.Notebook.nodes book.old) (N.Notebook.noted book.old) (N.Notebook.nodes book.new) (N.Notebook.noted book.new)) }
{
    let mut out = Vec::with_capacity(heap, calls.len())?;
    play(book, calls, &mut out);
    Ok(out)
}

// Two notebooks of any kinds give the same replies to every row of calls, and hold the same then. Both lists of replies
// are made before a call, so that want of memory leaves both notebooks as they were.
#[tactic(auto, using(crate::proofs::Once::one_play))]
pub fn agree<A: Notebook, B: Notebook>(
    heap: Global,
    a: &mut A,
    b: &mut B,
    calls: &[Call],
) -> Result<(Vec<Reply>, Vec<Reply>), AllocError>
    ensures agreed { IfOk result (λ p. Agreed calls.now p.0.items p.1.items (A.Notebook.nodes a.new) (B.Notebook.nodes b.new) (A.Notebook.noted a.new) (B.Notebook.noted b.new)) }
    ensures a_kept { OnErr result (Unchanged (A.Notebook.nodes a.old) (A.Notebook.noted a.old) (A.Notebook.nodes a.new) (A.Notebook.noted a.new)) }
    ensures b_kept { OnErr result (Unchanged (B.Notebook.nodes b.old) (B.Notebook.noted b.old) (B.Notebook.nodes b.new) (B.Notebook.noted b.new)) }
    ensures one { OnePlay }
{
    let mut first = Vec::with_capacity(heap, calls.len())?;
    let mut second = Vec::with_capacity(heap, calls.len())?;
    play(a, calls, &mut first);
    play(b, calls, &mut second);
    Ok((first, second))
}
