// The tables of a bench. Whatever calls are made, they are those of a run of the sheet.
ghost use Rattle.std.specs.Prelude.{◌≡◌, ◌≤◌, ◌+◌, length, vec_len, vec_capacity};
ghost use Rattle.sheet.specs.Sheets.{content_of};
ghost use Rattle.runs.specs.Tables.{described};
ghost use Rattle.playing.specs.Calls.{Reached};
ghost use Rattle.pages.specs.Pages.{nodes_on};
ghost use Rattle.bench.specs.Places.{strands_in, situation_in, KeptIn, HeldIn, Placed, Placed-prop, run_places, count};

use crate::standing::Standing;
use pages::PageTable;
use protocol::Action;
use sheet::Sheet;
use terms::NodeNo;

#[derive(Drop)]
pub(crate) struct Tables {
    pub(crate) sheet: Sheet,
    pub(crate) standings: Vec<Standing>,
    // the terms of the run, of what is written and of the sheet's nodes, each at a place
    pub(crate) pages: PageTable,
    // where each variable's value is
    pub(crate) values: [Option<NodeNo>; 64],
    // where the value of each node of the sheet is
    pub(crate) placed: [Option<NodeNo>; 256],
    // where what the caller has written is
    pub(crate) written: Vec<NodeNo>,
    // the actions, each with the place of its term
    pub(crate) run: Vec<Action>,
    ghost strands: { strands_in standings.items ≡ (content_of sheet).strands },
    ghost values_held: { KeptIn (nodes_on pages) values },
    ghost placed_held: { KeptIn (nodes_on pages) placed },
    ghost written_held: { HeldIn (nodes_on pages) written.items },
    ghost run_held: { HeldIn (nodes_on pages) (run_places run.items) },
    ghost told: { Placed (nodes_on pages) (content_of sheet).nodes values placed } by { Placed-prop (nodes_on pages) (content_of sheet).nodes values placed },
    ghost few_nodes: { length (nodes_on pages) ≤ vec_len written + count placed },
    ghost few_written: { vec_len written ≤ 512 },
    ghost written_room: { 512 ≤ vec_capacity written },
    ghost run_room: { 128 ≤ vec_capacity run },
    ghost reached: { ∥ Reached (described (content_of sheet)) (situation_in (nodes_on pages) standings.items values run.items written.items) ∥₁ },
}
