// The tables of a sheet, filled record by record.
ghost use Rattle.std.specs.Prelude.{◌≤◌, vec_len};

use entries::Text;
use protocol::{Property, Strand};
use std::alloc::AllocError;
use terms::{NodeTable, VarSet};

#[derive(Drop)]
pub struct Tables {
    pub(crate) labels: Vec<Text>,
    pub(crate) names: Vec<Text>,
    pub(crate) variables: Vec<Text>,
    pub(crate) nodes: NodeTable,
    pub(crate) strands: Vec<Strand>,
    pub(crate) property: Option<Property>,
    ghost few_variables: { vec_len variables ≤ 64 },
}

// The variables that a step binds, and those that it uses without binding them.
#[derive(Clone, Copy)]
pub struct Shape {
    pub binds: VarSet,
    pub uses: VarSet,
}

// Tables with the same content.
impl Clone for Tables {
    ghost use Rattle.std.specs.Prelude.{◌≡◌};
    ghost use Rattle.sheet.specs.View.{content};

    ghost is_clone = { λ s t. content t ≡ content s };

    fn clone(&self) -> Result<Tables, AllocError> {
        Ok(Tables {
            labels: self.labels.clone()?,
            names: self.names.clone()?,
            variables: self.variables.clone()?,
            nodes: self.nodes.clone()?,
            strands: self.strands.clone()?,
            property: self.property,
        })
    }
}
