// An ended run: it is looked at and judged, and goes no further.
ghost use Rattle.std.specs.Prelude.{◌≡◌, map};
ghost use Rattle.terms.specs.Nodes.{Found};
ghost use Rattle.runs.specs.Tables.{action_of, described};
ghost use Rattle.playing.specs.Calls.{Reached};
ghost use Rattle.playing.specs.Verdicts.{VerdictOf};
ghost use Rattle.bench.specs.Benches.{sheet_of, situation_of, nodes_of, sheet_ended, situation_ended, nodes_ended};

use crate::bench::Bench;
use crate::tables::Tables;
use judging::judge;
use notebook::Notebook;
use playing::Verdict;
use protocol::Action;
use terms::{Node, NodeNo};

#[derive(Drop)]
pub struct EndedRun {
    pub(crate) tables: Tables,
}

impl<N: Notebook + Drop> Bench<N> {
    // Ends the run. The bench is gone then, and so is its notebook. Whatever calls were made, in any order and number, the
    // run is one of the sheet.
    pub fn end(self) -> EndedRun
        ensures situation { situation_ended result ≡ situation_of self }
        ensures sheet { sheet_ended result ≡ sheet_of self }
        ensures reached { ∥ Reached (described (sheet_ended result)) (situation_ended result) ∥₁ }
    {
        EndedRun {
            tables: self.tables,
        }
    }

    // The actions of the run so far, each with the place of its term.
    pub fn actions(&self) -> &[Action]
        ensures { map (action_of (nodes_of self.now)) result.now ≡ (situation_of self.now).state.run }
    {
        self.tables.run.as_slice()
    }

    // The node at a place of the run's terms.
    pub fn node(&self, place: NodeNo) -> Option<Node>
        ensures { Found (nodes_of self.now) place.0 result }
    {
        self.tables.pages.get(place).map(|page| page.node)
    }
}

impl EndedRun {
    // The actions of the run, each with the place of its term.
    pub fn actions(&self) -> &[Action]
        ensures { map (action_of (nodes_ended self.now)) result.now ≡ (situation_ended self.now).state.run }
    {
        self.tables.run.as_slice()
    }

    // The node at a place of the run's terms.
    pub fn node(&self, place: NodeNo) -> Option<Node>
        ensures { Found (nodes_ended self.now) place.0 result }
    {
        self.tables.pages.get(place).map(|page| page.node)
    }

    // Whether the run breaks the property of its sheet.
    pub fn judgement(&self) -> Verdict
        ensures { VerdictOf (described (sheet_ended self.now)) (situation_ended self.now).state.run result }
    {
        let tables = &self.tables;
        judge(&tables.sheet, &tables.pages, &tables.run).unwrap()
    }
}
