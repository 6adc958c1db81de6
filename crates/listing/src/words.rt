// The words for the parts of a sheet: its terms, nodes, steps and actions.
ghost use Rattle.std.specs.Prelude.{◌≡◌, Some, map, string_bytes};
ghost use Rattle.sheet.specs.Sheets.{content_of};
ghost use Rattle.entries.specs.Texts.{text};
ghost use Rattle.listing.specs.Lines.{shown, written, step_words, direction_word, action_words, earlier_words};

use protocol::{Action, Direction, Step};
use sheet::{Sheet, text_at};
use std::fmt;
use terms::{Label, LocalName, Node, NodeNo, Variable};

// The bytes of the widest form that stands within a line.
pub(crate) const WIDEST: usize = 60;

// A sheet, and the written forms of its first nodes.
#[derive(Clone, Copy)]
pub(crate) struct Formed<'a> {
    pub(crate) sheet: &'a Sheet,
    pub(crate) forms: &'a [String],
}

// A part of such a sheet.
#[derive(Clone, Copy)]
pub(crate) struct Words<'a, T> {
    of: Formed<'a>,
    part: T,
}

impl<'a> Formed<'a> {
    pub(crate) fn words<T>(&self, part: T) -> Words<'a, T>
        ensures of { result.of ≡ self.now }
        ensures part { result.part ≡ part }
    {
        Words { of: *self, part }
    }

    // One for each sort of number: a trait of the three sorts would need as many functions.
    fn label(&self, label: Label) -> &'a str
        ensures { result.now ≡ text (content_of self.now.sheet.now).labels label.0 }
    {
        text_at(self.sheet.labels(), label.0)
    }

    fn name(&self, name: LocalName) -> &'a str
        ensures { result.now ≡ text (content_of self.now.sheet.now).names name.0 }
    {
        text_at(self.sheet.names(), name.0)
    }

    fn variable(&self, variable: Variable) -> &'a str
        ensures { result.now ≡ text (content_of self.now.sheet.now).variables variable.0 }
    {
        text_at(self.sheet.variables(), variable.0)
    }
}

// A term within a line: its form, or the number of its node where the form is too wide.
impl fmt::Display for Words<'_, NodeNo> {
    ghost output = { λ w. Some (shown (map string_bytes w.of.forms.now) w.part.0) };

    fn fmt<W: fmt::Write>(&self, f: &mut fmt::Formatter<W>) -> fmt::Result {
        let i = self.part.0 as usize;
        match self.of.forms.get(i) {
            Some(form) if form.len() > WIDEST => write!(f, "#{i}"),
            Some(form) => f.write_str(form.as_str()),
            None => Ok(()),
        }
    }
}

// A node over the forms of the nodes before it.
impl fmt::Display for Words<'_, Node> {
    ghost output = { λ w. Some (written (content_of w.of.sheet.now).names (content_of w.of.sheet.now).variables (map string_bytes w.of.forms.now) w.part) };

    fn fmt<W: fmt::Write>(&self, f: &mut fmt::Formatter<W>) -> fmt::Result {
        let of = self.of;
        match self.part {
            Node::Name(name) => f.write_str(of.name(name)),
            Node::Env(name) => write!(f, "env {}", name.0),
            Node::Var(variable) => f.write_str(of.variable(variable)),
            Node::Pair { left, right } => write!(f, "({}, {})", of.words(left), of.words(right)),
            Node::Seal { body, key } => write!(f, "{{{}}}{}", of.words(body), of.words(key)),
        }
    }
}

// What a step does.
impl fmt::Display for Words<'_, Step> {
    ghost output = { λ w. Some (step_words (content_of w.of.sheet.now) (map string_bytes w.of.forms.now) w.part) };

    fn fmt<W: fmt::Write>(&self, f: &mut fmt::Formatter<W>) -> fmt::Result {
        let of = self.of;
        match self.part {
            Step::Input { label, variable } => {
                write!(f, "input {} {}", of.label(label), of.variable(variable))
            }
            Step::Output { label, node } => {
                write!(f, "output {} {}", of.label(label), of.words(node))
            }
            Step::Open { subject, pattern } => {
                write!(f, "open {} as {}", of.words(subject), of.words(pattern))
            }
            Step::Split { subject, pattern } => {
                write!(f, "split {} as {}", of.words(subject), of.words(pattern))
            }
            Step::Same { left, right } => {
                write!(f, "same {} and {}", of.words(left), of.words(right))
            }
        }
    }
}

impl fmt::Display for Words<'_, Direction> {
    ghost output = { λ w. Some (direction_word w.part) };

    fn fmt<W: fmt::Write>(&self, f: &mut fmt::Formatter<W>) -> fmt::Result {
        f.write_str(match self.part {
            Direction::Input => "input ",
            Direction::Output => "output ",
        })
    }
}

impl fmt::Display for Words<'_, Action> {
    ghost output = { λ w. Some (action_words (content_of w.of.sheet.now) (map string_bytes w.of.forms.now) w.part) };

    fn fmt<W: fmt::Write>(&self, f: &mut fmt::Formatter<W>) -> fmt::Result {
        let Action {
            direction,
            label,
            node,
        } = self.part;
        write!(
            f,
            "{}{} {}",
            self.of.words(direction),
            self.of.label(label),
            self.of.words(node)
        )
    }
}

// The action that has to come before, if any.
impl fmt::Display for Words<'_, Option<Action>> {
    ghost output = { λ w. Some (earlier_words (content_of w.of.sheet.now) (map string_bytes w.of.forms.now) w.part) };

    fn fmt<W: fmt::Write>(&self, f: &mut fmt::Formatter<W>) -> fmt::Result {
        match self.part {
            Some(action) => write!(f, "only after {}", self.of.words(action)),
            None => f.write_str("never"),
        }
    }
}
