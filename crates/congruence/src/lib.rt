//! What equality over a table of terms means: fits, joined terms, merges and cores, with the law
//! proved.
#![tactic(auto)]

ghost use Rattle.congruence.specs.Samples.{Samples};

pub mod claim;
pub mod step;

pub use claim::Claim;
pub use step::{Reason, Step};

/// What the definitions answer on sample lists.
pub fn samples_stand()
    ensures { Samples }
{}
