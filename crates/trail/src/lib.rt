//! The trail of a history: its literals in their order, each with its reason, its level and its
//! position.
#![tactic(auto)]

pub mod trail;

pub use trail::Trail;
