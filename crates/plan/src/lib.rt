// Plans: which room is the master of which set of bases. A plan is written line by line, is sealed, and takes no line
// after that.
#![tactic(auto)]

pub mod draft;
pub mod laws;
pub mod line;
mod lookup;
mod masters;
pub mod sealed;
mod sealing;
mod writing;

pub use draft::PlanDraft;
pub use line::PlanLine;
pub use sealed::SealedPlan;
