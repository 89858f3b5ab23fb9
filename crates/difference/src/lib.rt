//! What distances between terms mean: bounds on differences, their greatest fit and their negative
//! cycles, with the law proved.
#![tactic(auto)]

ghost use Rattle.difference.specs.Samples.{Samples};

pub mod bound;

pub use bound::Bound;

/// What the definitions answer on sample lists.
pub fn samples_stand()
    ensures { Samples }
{}
