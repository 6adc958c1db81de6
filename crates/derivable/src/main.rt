// Reads nodes and notes from standard input, one to a line, and prints at each `ask` which places are derivable:
//     name N    env N    pair LEFT RIGHT    seal BODY KEY    note PLACE    ask
#![tactic(auto)]

use notebook::{NoteFault, Notebook, PutFault};
use notebooks::KeepingNotebook;
use std::str::FromStr;
use std::{fmt, io};
use terms::{EnvName, LocalName, Node, NodeNo};

#[derive(Clone, Copy)]
enum Command {
    Put(Node),
    Note(NodeNo),
    Ask,
}

// a line that is no command
#[derive(Clone, Copy, Debug)]
struct NoCommand;

impl FromStr for Command {
    type Err = NoCommand;

    fn from_str(line: &str) -> Result<Command, NoCommand> {
        let mut words = line.split_whitespace();
        let verb = words.next().ok_or(NoCommand)?;
        let mut number = || words
            .next()
            .and_then(|word| word.parse::<u16>().ok())
            .ok_or(NoCommand);
        let command = match verb {
            "name" => Command::Put(Node::Name(LocalName(number()?))),
            "env" => Command::Put(Node::Env(EnvName(number()?))),
            "pair" => Command::Put(Node::Pair {
                left: NodeNo(number()?),
                right: NodeNo(number()?),
            }),
            "seal" => Command::Put(Node::Seal {
                body: NodeNo(number()?),
                key: NodeNo(number()?),
            }),
            "note" => Command::Note(NodeNo(number()?)),
            "ask" => Command::Ask,
            _ => return Err(NoCommand),
        };
        Ok(command)
    }
}

// why a call is refused, printed as its number
#[derive(Clone, Copy)]
enum Refusal {
    Put(PutFault),
    Note(NoteFault),
}

impl fmt::Display for Refusal {
    fn fmt<W: fmt::Write>(&self, f: &mut fmt::Formatter<W>) -> fmt::Result {
        let number = match self {
            Refusal::Put(fault) => fault.number(),
            Refusal::Note(fault) => fault.number(),
        };
        write!(f, "refused {number}")
    }
}

// A node, printed as its command is written.
#[derive(Clone, Copy)]
struct Written(Node);

impl fmt::Display for Written {
    fn fmt<W: fmt::Write>(&self, f: &mut fmt::Formatter<W>) -> fmt::Result {
        match self.0 {
            Node::Name(n) => write!(f, "name {}", n.0),
            Node::Env(n) => write!(f, "env {}", n.0),
            Node::Var(n) => write!(f, "variable {}", n.0),
            Node::Pair { left, right } => write!(f, "pair {} {}", left.0, right.0),
            Node::Seal { body, key } => write!(f, "seal {} {}", body.0, key.0),
        }
    }
}

// A line for each held place: its node, and whether it is derivable.
fn list<N: Notebook>(rt: &HostRuntime, book: &N) -> io::Result<()> {
    let held = (0..u16::MAX)
        .map(NodeNo)
        .map_while(|place| book.read(place).map(|node| (place, node)));
    for (place, node) in held {
        let answer = if book.derivable(place) { "yes" } else { "no" };
        println!(rt; "{} {}: {answer}", place.0, Written(node))?;
    }
    Ok(())
}

// Prints why a call is refused, where it is.
fn report<T: Drop>(rt: &HostRuntime, outcome: Result<T, Refusal>) -> io::Result<()> {
    match outcome {
        Ok(_) => Ok(()),
        Err(refusal) => println!(rt; "{refusal}"),
    }
}

fn follow<N: Notebook>(rt: &HostRuntime, book: &mut N, line: &str) -> io::Result<()> {
    match line.parse::<Command>() {
        Ok(Command::Put(node)) => report(rt, book.put(node).map_err(Refusal::Put)),
        Ok(Command::Note(place)) => report(rt, book.note(place).map_err(Refusal::Note)),
        Ok(Command::Ask) => list(rt, book),
        Err(NoCommand) => println!(rt; "no command: {line}"),
    }
}

fn main(rt: HostRuntime) -> io::Result<()> {
    let mut book = KeepingNotebook::new(rt.alloc())?;
    for line in rt.lines(rt.alloc()) {
        let line = line?;
        follow(&rt, &mut book, line.as_str())?;
    }
    Ok(())
}
