//! The search: it proposes steps to a history over any theory until a verdict stands.
//!
//! The strategy is that of today's solvers (conflict-driven clause learning, DPLL modulo theories), in small parts:
//! `propagation`, `analysis` (first unique implication point), `activity` (VSIDS), `lemmas`, `rounds`, `forgetting`, `choices`.
//! Nothing here has to be believed: a verdict is right whatever is proposed.
#![tactic(auto)]

pub(crate) mod activity;
pub(crate) mod assignment;
pub(crate) mod choices;
pub(crate) mod formula;
pub(crate) mod lemmas;
pub(crate) mod literals;
pub mod outcome;
pub(crate) mod propagation;
pub mod recorder;
pub(crate) mod rounds;
pub mod solving;
pub(crate) mod strategy;
pub mod task;

pub use outcome::Outcome;
pub use recorder::{Forgetful, Recorder, Recording};
pub use solving::search;
pub use task::{Searched, Task};
