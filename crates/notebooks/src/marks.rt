// Marks on the first places of terms, beside the pages that they speak of. There are two types, since a notebook that
// keeps marks lends them as & to a question, and as &mut to what is noted.
ghost use Rattle.std.specs.Prelude.{◌≡◌, length};
ghost use Rattle.pages.specs.Pages.{nodes_on};

use crate::noted::Pages;

// marks to be read
#[derive(Clone, Copy)]
pub(crate) struct Known<'a> {
    pub(crate) pages: &'a Pages,
    pub(crate) known: &'a [bool],
    ghost size: { length known.now ≡ length (nodes_on pages.now.table) },
}

// marks to be made; each method that makes some says that the pages stayed (`Same`), since a caller sees the loan alone
#[derive(Drop)]
pub(crate) struct Marks<'a> {
    pub(crate) pages: &'a Pages,
    pub(crate) known: &'a mut [bool],
    ghost size: { length known.now ≡ length (nodes_on pages.now.table) },
}
