//! The inner table of a history: its clauses, its trail, its conflict and its count, without a theory.
#![tactic(auto)]

pub mod table;

pub use table::Table;
