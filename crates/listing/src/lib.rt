// The listing of a sheet as text.
#![tactic(auto)]

ghost use Rattle.std.specs.Prelude.{◌≡◌, map, IfOk, Some, string_bytes};
ghost use Rattle.protocol.specs.declared.step.Property.{Property};
ghost use Rattle.sheet.specs.Sheets.{content_of};
ghost use Rattle.listing.specs.Lines.{lines, forms};

mod lines;
mod reply;
mod words;

use crate::lines::{push_forms, push_texts};
use crate::words::Formed;
pub use reply::show;
use sheet::Sheet;
use std::alloc::{AllocError, Global};

// The written form of each node, by number, over the forms of the nodes before it.
#[tactic(auto, unfolding(crate::specs::Lines::forms))]
fn forms_of(heap: Global, sheet: &Sheet) -> Result<Vec<String>, AllocError>
    ensures { IfOk result (λ v. map string_bytes v.items ≡ forms (content_of sheet.now)) }
{
    let mut table = Vec::new(heap);
    for node in sheet.nodes() {
        let before = Formed {
            sheet,
            forms: table.as_slice(),
        };
        let form = format!(in heap; "{}", before.words(*node))?;
        table.push(form)?;
    }
    Ok(table)
}

// The lines that a person checks a sheet by. No line is longer than a few wide terms: a form of more than 60 bytes is
// named by its node's number and written out in a line of its own.
pub fn listing(heap: Global, sheet: &Sheet) -> Result<String, AllocError>
    ensures { IfOk result (λ t. (p : Property) × ((content_of sheet.now).property ≡ Some p) × (string_bytes t ≡ lines (content_of sheet.now) p)) }
{
    let forms = forms_of(heap, sheet)?;
    let formed = Formed {
        sheet,
        forms: forms.as_slice(),
    };
    let mut out = String::new(heap);
    push_texts(&mut out, "label", sheet.labels())?;
    push_texts(&mut out, "name", sheet.names())?;
    push_texts(&mut out, "variable", sheet.variables())?;
    push_forms(&mut out, formed.forms)?;
    formed.push_strands(&mut out)?;
    formed.push_property(&mut out, sheet.property())?;
    Ok(out)
}
