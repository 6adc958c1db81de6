// What every notebook here holds: a table of pages, and the noted places.
ghost use Rattle.std.specs.Prelude.{◌≤◌, vec_len, vec_capacity};
ghost use Rattle.derivation.specs.Noted.{Held};
ghost use Rattle.notebook.specs.Limits.{most_notes};
ghost use Rattle.pages.specs.Pages.{nodes_on};
ghost use Rattle.notebooks.specs.Numbers.{numbers};

use pages::PageTable;
use terms::NodeNo;

#[derive(Drop)]
pub(crate) struct Pages {
    pub(crate) table: PageTable,
    pub(crate) notes: Vec<NodeNo>,
    ghost room: { most_notes ≤ vec_capacity notes },
    ghost few: { vec_len notes ≤ most_notes },
    ghost held: { Held (nodes_on table) (numbers notes.items) },
}
