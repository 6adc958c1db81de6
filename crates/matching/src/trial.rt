// A trial of a matching: the matches made while it stands are undone when it ends, whichever way it ends.
ghost use Rattle.std.specs.Prelude.{◌≡◌, ◌≤◌, length};
ghost use Rattle.matching.specs.Matchings.{nodes_of, bound, MostGeneral, Matches, AllMatch, Already};

use crate::fault::MatchFault;
use crate::matching::Matching;
use terms::NodeNo;
use unification::{Ask, Binding};

pub struct Trial<'a> {
    matching: &'a mut Matching,
    // how many bindings there were
    mark: usize,
    ghost held: { mark ≤ length (bound matching.now) },
}

impl Drop for Trial<'_> {
    ghost use Rattle.matching.specs.Trials.{under, found, kept};

    // The binding list is cut back to the length that the trial found.
    fn drop(self)
        ensures bound { bound self.exit.0.now ≡ kept self.entry }
        ensures length { length (bound self.exit.0.now) ≡ found self.entry }
        ensures nodes { nodes_of self.exit.0.now ≡ nodes_of (under self.entry) }
    {
        let Trial { matching, mark } = self;
        matching.cut(mark);
    }
}

impl<'a> Trial<'a> {
    ghost use Rattle.matching.specs.Trials.{under, loan, found, kept};

    // A trial of this matching. While it stands, the matching itself cannot be reached.
    pub fn of(m: &'a mut Matching) -> Trial<'a>
        ensures same { loan result ≡ m.entry.ghost_name }
        ensures matching { under result ≡ m.old }
        ensures mark { found result ≡ length (bound m.old) }
        ensures kept { kept result ≡ bound m.old }
    {
        let mark = m.bindings().len();
        Trial { matching: m, mark }
    }
}

impl Trial<'_> {
    ghost use Rattle.matching.specs.Trials.{under, loan, found, kept};

    // As a match of the matching. A call of its own: it says too that the trial keeps what it found, and the loan, as a call
    // on a struct with a `&mut` has to for its lender.
    pub fn matches(&mut self, a: NodeNo, b: NodeNo) -> Result<bool, MatchFault>
        ensures same { loan self.new ≡ loan self.old }
        ensures mark { found self.new ≡ found self.old }
        ensures kept { kept self.new ≡ kept self.old }
        ensures answer { Matches (nodes_of (under self.old)) (bound (under self.old)) a.0 b.0 result (bound (under self.new)) }
        ensures nodes { nodes_of (under self.new) ≡ nodes_of (under self.old) }
    {
        self.matching.matches(a, b)
    }

    // The bindings while the trial stands, oldest first. A public call of its own, with all that the matching's says.
    pub fn bindings(&self) -> &[Binding]
        ensures list { result.now ≡ bound (under self.now) }
        ensures general { MostGeneral (nodes_of (under self.now)) (bound (under self.now)) }
    {
        self.matching.bindings()
    }

    // Matches these pairs one after another, up to one that cannot be made equal with those before it.
    fn match_each(&mut self, asks: &[Ask]) -> Result<bool, MatchFault>
        ensures same { loan self.new ≡ loan self.old }
        ensures kept { kept self.new ≡ kept self.old }
        ensures nodes { nodes_of (under self.new) ≡ nodes_of (under self.old) }
        ensures answer { AllMatch (nodes_of (under self.old)) (bound (under self.old)) asks.now result }
    {
        for w in asks {
            if !self.matches(w.left, w.right)? {
                return Ok(false);
            }
        }
        Ok(true)
    }
}

// Whether some instance of the bindings makes all of these pairs equal. The bindings are as they were, also where a pair
// has a number that is no node's.
pub fn all_match(m: &mut Matching, asks: &[Ask]) -> Result<bool, MatchFault>
    ensures answer { AllMatch (nodes_of m.old) (bound m.old) asks.now result }
    ensures bound { bound m.new ≡ bound m.old }
    ensures nodes { nodes_of m.new ≡ nodes_of m.old }
{
    let mut trial = Trial::of(m);
    trial.match_each(asks)
}

// Whether two nodes are equal under every instance of the bindings: their match adds none. The bindings are as they were,
// whichever way the trial ends.
pub fn already_equal(m: &mut Matching, a: NodeNo, b: NodeNo) -> Result<bool, MatchFault>
    ensures answer { Already (nodes_of m.old) (bound m.old) a.0 b.0 result }
    ensures bound { bound m.new ≡ bound m.old }
    ensures nodes { nodes_of m.new ≡ nodes_of m.old }
{
    let before = m.bindings().len();
    let mut trial = Trial::of(m);
    if !trial.matches(a, b)? {
        return Ok(false);
    }
    Ok(trial.bindings().len() == before)
}
