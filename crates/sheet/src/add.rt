// Adding the entries of a sheet file to a draft, each under the rules in their order.
ghost use Rattle.std.specs.Prelude.{◌≡◌, true, false, map, Decides, MatchResult};
ghost use Rattle.records.specs.Reading.{rec_of};
ghost use Rattle.protocol.specs.Lawful.{PropertyLaw};
ghost use Rattle.sheet.specs.View.{content};
ghost use Rattle.entries.specs.Texts.{bytes_of};
ghost use Rattle.entries.specs.Format as format;
ghost use Rattle.entries.specs.Rules.{InOrder, HasRoom};
ghost use Rattle.entries.specs.Growth.{nothing};
ghost use Rattle.entries.specs.Decoding.{entry_of, property_of};
ghost use Rattle.sheet.specs.Drafting.{Entered, Added, TextAdded, StepPlaced};

use crate::draft::{Draft, Placed};
use crate::refusal::Refusal;
use crate::tables::Tables;
use entries::{Entry, Fields, PropertyFields, Rule, Text};
use protocol::{Property, Step, Strand};
use records::Record;
use std::alloc::Global;
use terms::{Node, VarSet};

// The rule, where it is not kept.
fn ensure(keeps: bool, rule: Rule) -> Result<(), Rule>
    ensures { MatchResult result (λ _. keeps ≡ true) (λ q. (q ≡ rule) × (keeps ≡ false)) }
{
    if keeps { Ok(()) } else { Err(rule) }
}

fn add_text(table: &mut Vec<Text>, text: &[u8]) -> Result<(), Refusal>
    ensures { TextAdded (map bytes_of table.old.items) text.now result (map bytes_of table.new.items) }
{
    let held = Text::new(text).ok_or(Rule::Text)?;
    table.push(held)?;
    Ok(())
}

impl Draft {
    pub(crate) fn new(heap: Global) -> Draft
        ensures { content result.tables ≡ nothing }
    {
        Draft {
            tables: Tables::new(heap),
            bound: VarSet::empty(),
            here: VarSet::empty(),
        }
    }

    fn add_node(&mut self, f: Fields) -> Result<(), Refusal>
        requires order { InOrder (content self.old.tables) (format.node f.kind f.a f.b) }
        requires room { HasRoom (content self.old.tables) (format.node f.kind f.a f.b) }
        ensures { Entered (content self.old.tables) (format.node f.kind f.a f.b) result (content self.new.tables) }
    {
        let node = Node::try_from(f).or(Err(Rule::Node))?;
        ensure(self.tables.declares(node), Rule::Node)?;
        self.tables.nodes.push(node)?;
        Ok(())
    }

    fn add_strand(&mut self) -> Result<(), Refusal>
        requires order { InOrder (content self.old.tables) format.strand }
        requires room { HasRoom (content self.old.tables) format.strand }
        ensures { Entered (content self.old.tables) format.strand result (content self.new.tables) }
    {
        self.tables.strands.push(Strand::empty())?;
        self.here = VarSet::empty();
        Ok(())
    }

    // The step with these fields, where it may come next.
    fn place(&self, f: Fields) -> Result<Placed, Rule>
        requires order { InOrder (content self.now.tables) (format.step f.kind f.a f.b) }
        requires room { HasRoom (content self.now.tables) (format.step f.kind f.a f.b) }
        ensures { StepPlaced (content self.now.tables) f result }
    {
        let step = Step::try_from(f).or(Err(Rule::Step))?;
        let shape = self.tables.shape(step).ok_or(Rule::Step)?;
        ensure(shape.binds.is_disjoint(self.bound), Rule::Variable)?;
        ensure(shape.uses.is_subset(self.here), Rule::Variable)?;
        Ok(Placed {
            step,
            binds: shape.binds,
        })
    }

    #[tactic(auto, using(crate::proofs::Tracking::one_step_more))]
    fn add_step(&mut self, f: Fields) -> Result<(), Refusal>
        requires order { InOrder (content self.old.tables) (format.step f.kind f.a f.b) }
        requires room { HasRoom (content self.old.tables) (format.step f.kind f.a f.b) }
        ensures { Entered (content self.old.tables) (format.step f.kind f.a f.b) result (content self.new.tables) }
    {
        let placed = self.place(f)?;
        let latest = self.tables.strands.last_mut().unwrap();
        *latest = latest.with(placed.step).unwrap();
        self.bound = self.bound.union(placed.binds);
        self.here = self.here.union(placed.binds);
        Ok(())
    }

    // Whether a property is lawful.
    fn allows(&self, p: Property) -> bool
        ensures { Decides result (PropertyLaw (content self.now.tables) p) }
    {
        let Some(later) = self.tables.action(p.later) else {
            return false;
        };
        if !later.is_disjoint(self.bound) {
            return false;
        }
        let Some(action) = p.earlier else {
            return true;
        };
        self.tables
            .action(action)
            .is_some_and(|earlier| earlier.is_subset(later))
    }

    #[tactic(auto, using(crate::proofs::Stepping::property_refused))]
    fn add_property(&mut self, p: PropertyFields) -> Result<(), Refusal>
        requires order { InOrder (content self.old.tables) (property_of p) }
        ensures { Entered (content self.old.tables) (property_of p) result (content self.new.tables) }
    {
        let property = Property::try_from(p).or(Err(Rule::Property))?;
        ensure(self.allows(property), Rule::Property)?;
        self.tables.property = Some(property);
        Ok(())
    }

    // The first two rules are asked here for every entry, so the calls below rest on both; to ask them again in each, so
    // that none has to say so, would be no plainer. An entry is data, so there is a match, and each kind has its call.
    fn add_entry(&mut self, e: Entry) -> Result<(), Refusal>
        ensures { Entered (content self.old.tables) (entry_of e.entry) result (content self.new.tables) }
    {
        ensure(self.tables.takes(e), Rule::Kind)?;
        ensure(self.tables.has_room(e), Rule::Limit)?;
        match e {
            Entry::Label(text) => add_text(&mut self.tables.labels, text),
            Entry::Name(text) => add_text(&mut self.tables.names, text),
            Entry::Variable(text) => add_text(&mut self.tables.variables, text),
            Entry::Node(f) => self.add_node(f),
            Entry::Strand => self.add_strand(),
            Entry::Step(f) => self.add_step(f),
            Entry::Property(p) => self.add_property(p),
        }
    }

    // Adds what a record says, or finds the first rule that it breaks.
    #[tactic(auto, using(crate::proofs::Stepping::added))]
    pub(crate) fn add(&mut self, found: Record) -> Result<(), Refusal>
        ensures { Added (content self.old.tables) (rec_of found.entry) result (content self.new.tables) }
    {
        let e = Entry::try_from(found).or(Err(Rule::Kind))?;
        self.add_entry(e)
    }
}
