// Answer lines: what a line of a sheet is answered by, written in capital hexadecimal digits.
#![tactic(auto)]

pub mod layer;
pub mod reply;
pub mod write;

pub use layer::Layer;
pub use reply::Reply;
pub use write::{write_refused, write_taken};
