ghost use Rattle.std.specs.Prelude.{◌≡◌, IfOk};
ghost use Rattle.sheets.specs.Lines.{new_sheet};
ghost use Rattle.sheets.specs.Views.{sheet_of};

use crate::stage::Stage;
use openings::{BooksMemory, Opening};
use std::alloc::{AllocError, Global};

// A sheet as far as its lines have come.
#[derive(Drop)]
pub struct Sheet {
    pub(crate) lines: u64,
    pub(crate) opening: Opening,
    pub(crate) stage: Stage,
}

impl Sheet {
    // A new sheet, with all the memory that its lines will need.
    pub fn new(heap: Global) -> Result<Sheet, AllocError>
        ensures { IfOk result (λ s. sheet_of s ≡ new_sheet) }
    {
        let memory = BooksMemory::take(heap)?;
        Ok(Sheet {
            lines: 0,
            opening: Opening::new(),
            stage: Stage::Blank { memory },
        })
    }
}
