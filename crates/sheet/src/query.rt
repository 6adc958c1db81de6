// What a sheet holds. Labels, names and variables are three sorts, each asked for by a call of its own.
ghost use Rattle.std.specs.Prelude.{◌≡◌, map, Some};
ghost use Rattle.terms.specs.Tables.{nodes_in};
ghost use Rattle.protocol.specs.Strands.{steps_of};
ghost use Rattle.entries.specs.Texts.{bytes_of};
ghost use Rattle.sheet.specs.Sheets.{content_of};

use crate::sheet::Sheet;
use entries::Text;
use protocol::{Property, Strand};
use terms::{Node, NodeTable};

impl Sheet {
    // The texts of the labels, by number.
    pub fn labels(&self) -> &[Text]
        ensures { map bytes_of result.now ≡ (content_of self.now).labels }
    {
        self.tables.labels.as_slice()
    }

    // The texts of the local names, by number.
    pub fn names(&self) -> &[Text]
        ensures { map bytes_of result.now ≡ (content_of self.now).names }
    {
        self.tables.names.as_slice()
    }

    // The texts of the variables, by number.
    pub fn variables(&self) -> &[Text]
        ensures { map bytes_of result.now ≡ (content_of self.now).variables }
    {
        self.tables.variables.as_slice()
    }

    pub fn nodes(&self) -> &[Node]
        ensures { result.now ≡ (content_of self.now).nodes }
    {
        self.tables.nodes.as_slice()
    }

    // The nodes as a table.
    pub fn table(&self) -> &NodeTable
        ensures { nodes_in result.now ≡ (content_of self.now).nodes }
    {
        &self.tables.nodes
    }

    pub fn strands(&self) -> &[Strand]
        ensures { map steps_of result.now ≡ (content_of self.now).strands }
    {
        self.tables.strands.as_slice()
    }

    pub fn property(&self) -> Property
        ensures { (content_of self.now).property ≡ Some result }
    {
        self.tables.property.unwrap()
    }
}
