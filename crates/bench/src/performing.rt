// A step is taken.
ghost use Rattle.std.specs.Prelude.{◌≡◌, ◌<◌, ◌++◌, vec_len, vec_capacity};
ghost use Rattle.bench.specs.Places.{Extends};
ghost use Rattle.bench.specs.Effects.{EffectHeld, Performs, performed, acted};
ghost use Rattle.bench.specs.Tables.{sheet_in, protocol_in, nodes_of, situation};

use crate::effect::Effect;
use crate::placing::place_all;
use crate::standing::advance;
use crate::tables::Tables;
use protocol::Action;
use terms::StrandNo;

// The run gets the action of a step.
fn record(run: &mut Vec<Action>, effect: Effect)
    requires { vec_len run.old < vec_capacity run.old }
    ensures run { run.new.items ≡ run.old.items ++ acted effect }
    ensures room { vec_capacity run.new ≡ vec_capacity run.old }
{
    if let Some(action) = effect.action() {
        run.push_reserved(action);
    }
}

impl Tables {
    // The strand goes on, its variables get their values, the run its action, and what can be told now is placed.
    pub(crate) fn perform(&mut self, strand: StrandNo, effect: Effect)
        requires held { EffectHeld (nodes_of self.old) effect }
        requires performs { Performs (protocol_in self.old) (nodes_of self.old) (situation self.old).state strand.0 effect }
        ensures situation { situation self.new ≡ performed (nodes_of self.old) (situation self.old) strand.0 effect }
        ensures sheet { sheet_in self.new ≡ sheet_in self.old }
        ensures grown { Extends (nodes_of self.old) (nodes_of self.new) }
        ensures run { self.new.run.items ≡ self.old.run.items ++ acted effect }
    {
        advance(&mut self.standings, strand);
        effect.bind(&mut self.values);
        place_all(&self.sheet, &self.values, &mut self.pages, &mut self.placed);
        record(&mut self.run, effect);
    }
}
