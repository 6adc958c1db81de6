// The notebook gets what the pages have.
ghost use Rattle.std.specs.Prelude.{◌≡◌, length};
ghost use Rattle.pages.specs.Pages.{nodes_on};
ghost use Rattle.bench.specs.Places.{Extends};

use notebook::Notebook;
use pages::PageTable;
use terms::NodeNo;

// Puts the nodes that the pages have beyond those of the notebook, of which there are so many. None is refused: the pages
// are lawful and no more than a notebook holds.
pub(crate) fn copy<N: Notebook>(book: &mut N, pages: &PageTable, held: usize)
    requires held { held ≡ length (N.Notebook.nodes book.old) }
    requires extends { Extends (N.Notebook.nodes book.old) (nodes_on pages.now) }
    ensures nodes { N.Notebook.nodes book.new ≡ nodes_on pages.now }
    ensures noted { N.Notebook.noted book.new ≡ N.Notebook.noted book.old }
{
    for i in held..pages.len() {
        let page = pages.get(NodeNo(i as u16)).unwrap();
        book.put(page.node).unwrap();
    }
}
