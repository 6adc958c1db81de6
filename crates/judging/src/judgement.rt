// A run is broken where the later action of the property comes in it, and under the values that this fixes the earlier one does
// not come before. That is asked of runs of messages alone.
ghost use Rattle.std.specs.Prelude.{◌<◌, length, Decides};
ghost use Rattle.sheet.specs.Sheets.{content_of};
ghost use Rattle.pages.specs.Pages.{nodes_on};
ghost use Rattle.runs.specs.Runs.{Broken};
ghost use Rattle.runs.specs.Tables.{action_of, described};
ghost use Rattle.playing.specs.Judging.{Judged, ClosedRun};
ghost use Rattle.judging.specs.Judgements.{RunHeld, run_of, Suited, Comes, Judgement};

use crate::fitting::{Fitting, MOST_VARIABLES};
use pages::PageTable;
use playing::Verdict;
use protocol::{Action, Property};
use sheet::Sheet;
use terms::NodeNo;

impl Fitting<'_> {
    ghost use Rattle.judging.specs.Places.{values_in, AllHeld};
    ghost use Rattle.judging.specs.Fittings.{open_nodes, closed_nodes};

    // The values under which an action of the sheet is one of the run, among which are these.
    fn fit_action(
        &self,
        values: &[Option<NodeNo>; MOST_VARIABLES],
        wanted: Action,
        action: Action,
    ) -> Option<[Option<NodeNo>; MOST_VARIABLES]>
        requires wanted_held { wanted.node.0 < length (open_nodes self.now) }
        requires held { action.node.0 < length (closed_nodes self.now) }
        requires values_held { AllHeld (closed_nodes self.now) values.now }
        ensures { let ns = closed_nodes self.now in Suited ns (values_in ns values.now) (action_of (open_nodes self.now) wanted) (action_of ns action) result }
    {
        if action.direction != wanted.direction || action.label != wanted.label {
            return None;
        }
        self.fit(values, wanted.node, action.node)
    }

    // Whether an action of the sheet comes in a run under these values.
    fn comes(
        &self,
        values: &[Option<NodeNo>; MOST_VARIABLES],
        wanted: Action,
        run: &[Action],
    ) -> bool
        requires wanted_held { wanted.node.0 < length (open_nodes self.now) }
        requires held { RunHeld (closed_nodes self.now) run.now }
        requires values_held { AllHeld (closed_nodes self.now) values.now }
        ensures { let ns = closed_nodes self.now in Decides result (Comes (values_in ns values.now) (action_of (open_nodes self.now) wanted) (run_of ns run.now)) }
    {
        run.iter().any(|action| self.fit_action(values, wanted, *action).is_some())
    }

    // Whether an action breaks the property after these.
    fn breaks(&self, before: &[Action], action: Action) -> bool
        requires before_held { RunHeld (closed_nodes self.now) before.now }
        requires held { action.node.0 < length (closed_nodes self.now) }
        ensures { let ns = closed_nodes self.now in Decides result (Judged (described (content_of self.now.sheet.now)) (run_of ns before.now) (action_of ns action)) }
    {
        let Property { earlier, later } = self.sheet.property();
        let none = [None; MOST_VARIABLES];
        let Some(values) = self.fit_action(&none, later, action) else {
            return false;
        };
        match earlier {
            None => true,
            Some(wanted) => !self.comes(&values, wanted, before),
        }
    }
}

// Whether a run of messages over the places of these pages breaks the property of a sheet.
fn is_broken(sheet: &Sheet, pages: &PageTable, run: &[Action]) -> bool
    requires held { RunHeld (nodes_on pages.now) run.now }
    requires said { ClosedRun (run_of (nodes_on pages.now) run.now) }
    ensures { Decides result (Broken (described (content_of sheet.now)) (run_of (nodes_on pages.now) run.now)) }
{
    let fitting = Fitting { sheet, pages };
    for i in 0..run.len() {
        if fitting.breaks(&run[..i], run[i]) {
            return true;
        }
    }
    false
}

// How a run over the places of these pages is judged by the property of a sheet, or none where some action's place is not held
// or its term is no message. Each action that the later one of the property fits costs one pass over those before it.
pub fn judge(sheet: &Sheet, pages: &PageTable, run: &[Action]) -> Option<Verdict>
    ensures { Judgement (described (content_of sheet.now)) (nodes_on pages.now) run.now result }
{
    if !run.iter().all(|action| pages.is_message(action.node)) {
        return None;
    }
    if is_broken(sheet, pages, run) {
        return Some(Verdict::Broken);
    }
    Some(Verdict::Kept)
}
