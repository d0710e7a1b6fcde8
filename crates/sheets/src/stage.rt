use crate::draft::Draft;
use crate::open_house::OpenHouse;
use openings::BooksMemory;

// How far a sheet is. The memory of a house is there until it is opened.
#[derive(Drop)]
pub enum Stage {
    // no plan is begun
    Blank { memory: BooksMemory },
    // a plan is being written
    Planning { draft: Draft, memory: BooksMemory },
    // the house is open
    Open(OpenHouse),
}
