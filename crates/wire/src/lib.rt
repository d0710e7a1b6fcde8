// The wire: what carries batches and announcements between the rooms.
#![tactic(auto)]

pub mod announcement;
pub mod wire;

pub use announcement::Announcement;
pub use wire::Wire;
