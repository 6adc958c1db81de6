// The lines of a sheet: those of the texts, of the wide forms, of the strands and their steps, and of the property. The text
// is handed to each call: a struct that holds it would have to lend it on to each closure. What a call adds to the text is an
// equation in its clause, since a word for it would say less.
ghost use Rattle.std.specs.Prelude.{◌≡◌, ℕ, List, ◌++◌, map, string_bytes, OnOk};
ghost use Rattle.sheet.specs.Sheets.{content_of};
ghost use Rattle.protocol.specs.Strands.{steps_of};
ghost use Rattle.entries.specs.Texts.{bytes_of};
ghost use Rattle.listing.specs.Adds.{AddsEach};
ghost use Rattle.listing.specs.Lines.{numbered, text_line, form_line, step_line, strand_lines, property_line};

use crate::words::{Formed, WIDEST};
use protocol::{Property, Step, Strand};
use sheet::Text;
use std::alloc::AllocError;

// What `line` writes of each item under its number, one after another.
fn push_lines<T, F: Fn(&mut String, usize, &T) -> Result<(), AllocError>>(
    out: &mut String,
    items: &[T],
    line: F,
) -> Result<(), AllocError>
    requires { F.IsAlwaysCallable line }
    ensures { (f : ℕ → T → List ℕ) → AddsEach (F.post line) f → OnOk result (string_bytes out.new ≡ string_bytes out.old ++ numbered f 0 items.now) }
{
    for (i, item) in items.iter().enumerate() {
        line(out, i, item)?;
    }
    Ok(())
}

fn push_text(out: &mut String, word: &str, i: usize, text: &Text) -> Result<(), AllocError>
    ensures { OnOk result (string_bytes out.new ≡ string_bytes out.old ++ text_line word.now i (bytes_of text.now)) }
{
    writeln!(out, "{word} {i} {text}")
}

// A line for each text of a table, after the table's word.
pub(crate) fn push_texts(out: &mut String, word: &str, texts: &[Text]) -> Result<(), AllocError>
    ensures { OnOk result (string_bytes out.new ≡ string_bytes out.old ++ numbered (text_line word.now) 0 (map bytes_of texts.now)) }
{
    push_lines(out, texts, |out, i, text| push_text(out, word, i, text))
}

// The line of a form, where it is too wide to stand within another line.
fn push_form(out: &mut String, i: usize, form: &String) -> Result<(), AllocError>
    ensures { OnOk result (string_bytes out.new ≡ string_bytes out.old ++ form_line i (string_bytes form.now)) }
{
    if form.len() <= WIDEST {
        return Ok(());
    }
    writeln!(out, "#{i} {form}")
}

// A line for each form that is too wide.
pub(crate) fn push_forms(out: &mut String, forms: &[String]) -> Result<(), AllocError>
    ensures { OnOk result (string_bytes out.new ≡ string_bytes out.old ++ numbered form_line 0 (map string_bytes forms.now)) }
{
    push_lines(out, forms, push_form)
}

impl Formed<'_> {
    fn push_step(&self, out: &mut String, i: usize, step: &Step) -> Result<(), AllocError>
        ensures { OnOk result (string_bytes out.new ≡ string_bytes out.old ++ step_line (content_of self.now.sheet.now) (map string_bytes self.now.forms.now) i step.now) }
    {
        writeln!(out, "  {i} {}", self.words(*step))
    }

    // The line of a strand, and those of its steps.
    fn push_strand(&self, out: &mut String, k: usize, strand: &Strand) -> Result<(), AllocError>
        ensures { OnOk result (string_bytes out.new ≡ string_bytes out.old ++ strand_lines (content_of self.now.sheet.now) (map string_bytes self.now.forms.now) k (steps_of strand.now)) }
    {
        writeln!(out, "strand {k}")?;
        push_lines(
            out,
            strand.steps(),
            |out, i, step| self.push_step(out, i, step),
        )
    }

    // The lines of each strand.
    pub(crate) fn push_strands(&self, out: &mut String) -> Result<(), AllocError>
        ensures { OnOk result (string_bytes out.new ≡ string_bytes out.old ++ numbered (strand_lines (content_of self.now.sheet.now) (map string_bytes self.now.forms.now)) 0 (content_of self.now.sheet.now).strands) }
    {
        push_lines(
            out,
            self.sheet.strands(),
            |out, k, strand| self.push_strand(out, k, strand),
        )
    }

    pub(crate) fn push_property(
        &self,
        out: &mut String,
        property: Property,
    ) -> Result<(), AllocError>
        ensures { OnOk result (string_bytes out.new ≡ string_bytes out.old ++ property_line (content_of self.now.sheet.now) (map string_bytes self.now.forms.now) property) }
    {
        let Property { earlier, later } = property;
        writeln!(
            out,
            "property {} {}",
            self.words(later),
            self.words(earlier)
        )
    }
}
