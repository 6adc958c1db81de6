// The bench: a notebook, and tables beside it. Nothing but the notebook tells what the stranger can put together.
ghost use Rattle.std.specs.Prelude.{◌≡◌};
ghost use Rattle.bench.specs.Tables.{nodes_of};
ghost use Rattle.bench.specs.Steps.{noted_in};

use crate::tables::Tables;
use notebook::Notebook;

// By the type of the tables, what has been played is a run of the sheet, whatever calls were made.
#[derive(Drop)]
pub struct Bench<N: Notebook> {
    pub(crate) book: N,
    pub(crate) tables: Tables,
    ghost nodes: { N.Notebook.nodes book ≡ nodes_of tables },
    ghost noted: { N.Notebook.noted book ≡ noted_in tables.run.items },
}
