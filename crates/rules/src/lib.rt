//! The rules of a history: ten kinds of step, and what stands of every run of them over every theory.
#![tactic(auto)]

pub mod entry;
pub mod law;
pub mod refusal;
pub mod samples;
pub mod step;

pub use entry::{Entry, Reason};
pub use law::{histories_stand, steps_stand};
pub use refusal::{Refusal, Unopened};
pub use samples::samples_stand;
pub use step::{Step, Verdict};
