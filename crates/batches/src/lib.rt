// Batches: what is to be done to stock, written step by step, sealed, and run.
#![tactic(auto)]

pub mod draft;
pub mod laws;
pub mod outcome;
mod running;
pub mod sealed;
mod sealing;
pub mod step;
mod steps;
mod taking;
mod writing;

pub use draft::{BatchDraft, Unsealed};
pub use outcome::{Outcome, RunResult};
pub use sealed::SealedBatch;
pub use step::{Step, StepNumbers};
