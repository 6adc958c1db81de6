// The calls of a bench.
ghost use Rattle.std.specs.Prelude.{◌≡◌, ◌<◌, length, IfOk, OnErr, Decides};
ghost use Rattle.terms.specs.Nodes.{term};
ghost use Rattle.derivation.specs.Derive.{Derives};
ghost use Rattle.runs.specs.Runs.{messages};
ghost use Rattle.sheet.specs.Sheets.{content_of};
ghost use Rattle.playing.specs.Calls.{opened, Wrote, Fed, Moved};
ghost use Rattle.bench.specs.Tables.{sheet_in, protocol_in, nodes_of, situation};
ghost use Rattle.bench.specs.Benches.{sheet_of, protocol_of, situation_of, BookKept};
ghost use Rattle.bench.specs.Effects.{EffectHeld, Performs, performed};

use crate::bench::Bench;
use crate::copying::copy;
use crate::effect::Effect;
use crate::tables::Tables;
use notebook::Notebook;
use playing::{StepFault, WriteFault};
use protocol::{Action, Direction};
use sheet::Sheet;
use std::alloc::{AllocError, Global};
use terms::{Node, NodeNo, StrandNo};

impl<N: Notebook + Drop> Bench<N> {
    // Opens a bench on a copy of a sheet; the notebook is cleared.
    #[tactic(auto, using(crate::proofs::Places::extends_none))]
    pub fn open(heap: Global, sheet: &Sheet, book: N) -> Result<Bench<N>, AllocError>
        ensures { IfOk result (λ b. (sheet_of b ≡ content_of sheet.now) × (situation_of b ≡ opened)) }
    {
        let tables = Tables::open(heap, sheet)?;
        let mut book = book;
        book.clear();
        copy(&mut book, &tables.pages, 0);
        Ok(Bench { book, tables })
    }

    // Takes a step, and lets the notebook know what is new on the pages and in the run.
    fn perform(&mut self, strand: StrandNo, effect: Effect)
        requires held { EffectHeld (nodes_of self.old.tables) effect }
        requires performs { Performs (protocol_in self.old.tables) (nodes_of self.old.tables) (situation self.old.tables).state strand.0 effect }
        ensures situation { situation self.new.tables ≡ performed (nodes_of self.old.tables) (situation self.old.tables) strand.0 effect }
        ensures sheet { sheet_in self.new.tables ≡ sheet_in self.old.tables }
    {
        let held = self.tables.pages.len();
        self.tables.perform(strand, effect);
        copy(&mut self.book, &self.tables.pages, held);
        if let Some(action) = effect.action() {
            self.book.note(action.node).unwrap();
        }
    }

    // Writes a node at the next of the caller's 512 places.
    pub fn write(&mut self, node: Node) -> Result<NodeNo, WriteFault>
        ensures wrote { Wrote (length (sheet_of self.old).names) (situation_of self.old) node result (situation_of self.new) }
        ensures sheet { sheet_of self.new ≡ sheet_of self.old }
        ensures kept { OnErr result (BookKept self.old self.new) }
    {
        let held = self.tables.pages.len();
        let place = self.tables.write(node)?;
        copy(&mut self.book, &self.tables.pages, held);
        Ok(place)
    }

    // Whether the message at a place can be put together from the run's terms: the notebook is asked, and nothing else.
    #[tactic(auto, using(crate::proofs::Calling::derives_told))]
    fn is_derived(&self, node: NodeNo) -> bool
        requires { node.0 < length (nodes_of self.now.tables) }
        ensures { let t = self.now.tables in Decides result (Derives (messages (situation t).state.run) (term (nodes_of t) node.0)) }
    {
        self.book.derivable(node)
    }

    // Gives a strand at an input the message at a place, where the notebook says that it can be put together.
    pub fn feed(&mut self, strand: StrandNo, place: NodeNo) -> Result<(), StepFault>
        ensures fed { Fed (protocol_of self.old) (situation_of self.old) strand.0 place.0 result (situation_of self.new) }
        ensures sheet { sheet_of self.new ≡ sheet_of self.old }
        ensures kept { OnErr result (BookKept self.old self.new) }
    {
        let (label, variable) = self.tables.input(strand)?;
        let node = self.tables.page_of(place).ok_or(StepFault::NotWritten)?;
        if !self.is_derived(node) {
            return Err(StepFault::NotDerivable);
        }
        let action = Action {
            direction: Direction::Input,
            label,
            node,
        };
        self.perform(strand, Effect::Receive { action, variable });
        Ok(())
    }

    // Takes a strand's next step, which is no input.
    pub fn make_move(&mut self, strand: StrandNo) -> Result<(), StepFault>
        ensures moved { Moved (protocol_of self.old) (situation_of self.old) strand.0 result (situation_of self.new) }
        ensures sheet { sheet_of self.new ≡ sheet_of self.old }
        ensures kept { OnErr result (BookKept self.old self.new) }
    {
        let effect = self.tables.movement(strand)?;
        self.perform(strand, effect);
        Ok(())
    }
}
