// The limits of all strands of a sheet.
ghost use Rattle.std.specs.Prelude.{IfOk};
ghost use Rattle.sheet.specs.Sheets.{content_of};
ghost use Rattle.runs.specs.Apart.{Longest};
ghost use Rattle.runs.specs.Tables.{described};
ghost use Rattle.limits.specs.Limits.{most_in};

use crate::keys::KeyedNodes;
use crate::most::Limits;
use crate::walk::longest;
use sheet::Sheet;
use std::alloc::{AllocError, Global};

// The longest beginning of each strand that can be satisfied. Strands share no variables, so a schedule is feasible where it
// mentions none of them more often.
pub fn limits(heap: Global, sheet: &Sheet) -> Result<Limits, AllocError>
    ensures { IfOk result (λ l. Longest (described (content_of sheet.now)) (most_in l)) }
{
    let table = sheet.table().clone()?;
    let nodes = KeyedNodes::of(heap, table)?;
    let count = sheet.strands().len();
    let mut numbers = Vec::with_capacity(heap, count)?;
    for k in 0..count {
        numbers.push(longest(heap, sheet, &nodes, k)?)?;
    }
    Ok(Limits { numbers })
}
