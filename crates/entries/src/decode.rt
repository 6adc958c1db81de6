// From records to entries, and from an entry's numbers to nodes, steps and properties. Each kind's number stands here
// once, beside what it stands for.
ghost use Rattle.std.specs.Prelude.{◌≡◌, ℕ, ◌*◌, ◌++◌, length, MatchResult};
ghost use Rattle.records.specs.Reading.{rec_of};
ghost use Rattle.records.specs.Bytes.{word};
ghost use Rattle.entries.specs.Decoding.{Decoded, NodeDecoded, StepDecoded, ActionDecoded, PropertyDecoded};

use crate::entry::{Entry, Fields, PropertyFields, Unknown};
use protocol::{Action, Direction, Property, Step};
use records::{Record, words};
use terms::{EnvName, Label, LocalName, Node, NodeNo, Variable};

// what stands in place of an earlier action where there is none
const NO_ACTION: Fields = Fields {
    kind: 0,
    a: 0,
    b: 0,
};

// A body of three numbers.
fn fields(body: &[u8]) -> Result<Fields, Unknown>
    ensures { MatchResult result (λ f. word f.kind ++ (word f.a ++ word f.b) ≡ body.now) (λ _. ¬ (length body.now ≡ 6)) }
{
    let [kind, a, b] = words::<3>(body).ok_or(Unknown)?;
    Ok(Fields { kind, a, b })
}

// A body of six numbers.
#[tactic(auto, using(crate::proofs::Bodies::six_body))]
fn property_fields(body: &[u8]) -> Result<PropertyFields, Unknown>
    ensures { MatchResult result (λ p. word p.earlier.kind ++ (word p.earlier.a ++ (word p.earlier.b ++ (word p.later.kind ++ (word p.later.a ++ word p.later.b)))) ≡ body.now) (λ _. ¬ (length body.now ≡ 12)) }
{
    let [kind, a, b, later, c, d] = words::<6>(body).ok_or(Unknown)?;
    Ok(PropertyFields {
        earlier: Fields { kind, a, b },
        later: Fields {
            kind: later,
            a: c,
            b: d,
        },
    })
}

impl<'a> TryFrom<Record<'a>> for Entry<'a> {
    type Error = Unknown;

    ghost try_from_gives = { λ x r. Decoded (rec_of x) r };

    fn try_from(found: Record<'a>) -> Result<Entry<'a>, Unknown> {
        match found.kind {
            1 => Ok(Entry::Label(found.body)),
            2 => Ok(Entry::Name(found.body)),
            3 => Ok(Entry::Variable(found.body)),
            4 => Ok(Entry::Node(fields(found.body)?)),
            5 if found.body.is_empty() => Ok(Entry::Strand),
            6 => Ok(Entry::Step(fields(found.body)?)),
            7 => Ok(Entry::Property(property_fields(found.body)?)),
            _ => Err(Unknown),
        }
    }
}

impl TryFrom<Fields> for Node {
    type Error = Unknown;

    ghost try_from_gives = { NodeDecoded };

    fn try_from(f: Fields) -> Result<Node, Unknown> {
        match f.kind {
            1 if f.b == 0 => Ok(Node::Name(LocalName(f.a))),
            2 if f.b == 0 => Ok(Node::Var(Variable(f.a))),
            3 => Ok(Node::Pair {
                left: NodeNo(f.a),
                right: NodeNo(f.b),
            }),
            4 => Ok(Node::Seal {
                body: NodeNo(f.a),
                key: NodeNo(f.b),
            }),
            5 if f.b == 0 => Ok(Node::Env(EnvName(f.a))),
            _ => Err(Unknown),
        }
    }
}

impl TryFrom<Fields> for Step {
    type Error = Unknown;

    ghost try_from_gives = { StepDecoded };

    fn try_from(f: Fields) -> Result<Step, Unknown> {
        match f.kind {
            1 => Ok(Step::Input {
                label: Label(f.a),
                variable: Variable(f.b),
            }),
            2 => Ok(Step::Output {
                label: Label(f.a),
                node: NodeNo(f.b),
            }),
            3 => Ok(Step::Open {
                subject: NodeNo(f.a),
                pattern: NodeNo(f.b),
            }),
            4 => Ok(Step::Split {
                subject: NodeNo(f.a),
                pattern: NodeNo(f.b),
            }),
            5 => Ok(Step::Same {
                left: NodeNo(f.a),
                right: NodeNo(f.b),
            }),
            _ => Err(Unknown),
        }
    }
}

impl TryFrom<Fields> for Action {
    type Error = Unknown;

    ghost try_from_gives = { ActionDecoded };

    fn try_from(f: Fields) -> Result<Action, Unknown> {
        let direction = match f.kind {
            1 => Direction::Input,
            2 => Direction::Output,
            _ => return Err(Unknown),
        };
        Ok(Action {
            direction,
            label: Label(f.a),
            node: NodeNo(f.b),
        })
    }
}

impl TryFrom<PropertyFields> for Property {
    type Error = Unknown;

    ghost try_from_gives = { PropertyDecoded };

    fn try_from(p: PropertyFields) -> Result<Property, Unknown> {
        let later = Action::try_from(p.later)?;
        let earlier = if p.earlier == NO_ACTION {
            None
        } else {
            Some(Action::try_from(p.earlier)?)
        };
        Ok(Property { earlier, later })
    }
}
