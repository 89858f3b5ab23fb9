//! Equality over a table of terms, as a theory.
#![tactic(auto)]

pub(crate) mod check;
pub(crate) mod closure;
pub(crate) mod explain;
pub(crate) mod marks;
pub(crate) mod query;
pub mod state;
pub(crate) mod terms;

pub use state::Equality;
pub use state::make::make;
