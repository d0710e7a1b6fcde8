// Why a call is refused. Every refusal of the program is one of these causes, and each cause has one number.
#![tactic(auto)]

pub mod refusal;

pub use refusal::Refusal;
