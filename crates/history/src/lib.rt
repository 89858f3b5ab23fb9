//! Histories: a theory, and the table of a run of steps over it.
#![tactic(auto)]

pub(crate) mod ask;
pub mod history;
pub mod played;

pub use history::{History, Returned};
pub use played::{Played, replay};
