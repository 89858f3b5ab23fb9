//! Distances between terms, as a theory.
#![tactic(auto)]

pub(crate) mod based;
pub(crate) mod bounds;
pub(crate) mod check;
pub(crate) mod queue;
pub(crate) mod settle;
pub mod state;
pub(crate) mod table;

pub use state::Distance;
pub use state::make::make;
