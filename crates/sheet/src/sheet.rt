// A sheet is lawful by its type.
ghost use Rattle.protocol.specs.Lawful.{Lawful};
ghost use Rattle.sheet.specs.View.{content};

use crate::tables::Tables;
use std::alloc::AllocError;

#[derive(Drop)]
pub struct Sheet {
    pub(crate) tables: Tables,
    ghost lawful: { ∥ Lawful (content tables) ∥₁ },
}

// A sheet with the same content.
impl Clone for Sheet {
    ghost use Rattle.std.specs.Prelude.{◌≡◌};
    ghost use Rattle.sheet.specs.Sheets.{content_of};

    ghost is_clone = { λ s t. content_of t ≡ content_of s };

    fn clone(&self) -> Result<Sheet, AllocError> {
        let tables = self.tables.clone()?;
        Ok(Sheet { tables })
    }
}
