// A bench is opened on a copy of a sheet. All memory is taken here.
ghost use Rattle.std.specs.Prelude.{◌≡◌, ℕ, map, None, IfOk, slice_index_or};
ghost use Rattle.sheet.specs.Sheets.{content_of};
ghost use Rattle.playing.specs.Calls.{opened};
ghost use Rattle.bench.specs.Places.{standing_first};
ghost use Rattle.bench.specs.Tables.{sheet_in, situation};

use crate::placing::place_all;
use crate::standing::Standing;
use crate::tables::Tables;
use pages::PageTable;
use protocol::Strand;
use sheet::Sheet;
use std::alloc::{AllocError, Global};
use terms::NodeNo;

// Every strand stands before its first step.
fn at_the_start(heap: Global, strands: &[Strand]) -> Result<Vec<Standing>, AllocError>
    ensures { IfOk result (λ v. v.items ≡ map standing_first strands.now) }
{
    strands
        .iter()
        .map(|strand| Standing {
            strand: *strand,
            next: 0,
        })
        .collect(heap)
}

// No place yet, for each of so many.
fn no_places<const N: usize>() -> [Option<NodeNo>; N]
    ensures { (i : ℕ) → slice_index_or result i None ≡ None }
{
    [None; N]
}

impl Tables {
    pub(crate) fn open(heap: Global, sheet: &Sheet) -> Result<Tables, AllocError>
        ensures { IfOk result (λ t. (sheet_in t ≡ content_of sheet.now) × (situation t ≡ opened)) }
    {
        let sheet = sheet.clone()?;
        let standings = at_the_start(heap, sheet.strands())?;
        let mut pages = PageTable::new(heap)?;
        let written = Vec::with_capacity(heap, 512)?;
        let run = Vec::with_capacity(heap, 128)?;
        let values = no_places();
        let mut placed = no_places();
        place_all(&sheet, &values, &mut pages, &mut placed);
        Ok(Tables {
            sheet,
            standings,
            pages,
            values,
            placed,
            written,
            run,
        })
    }
}
