//! What stands of every history over the theory at hand.
ghost use Rattle.theory.specs.Members.{meaning};
ghost use Rattle.rules.specs.Histories.{HistoriesStand, ReachedStand};
ghost use Rattle.rules.specs.Judged.{StepsStand};

use theory::Theory;

/// In every state that some steps lead to, a step is accepted exactly if a rule has it, and refused exactly by the
/// first
/// cause in its table that holds.
pub fn steps_stand<T: Theory>(theory: &T)
    ensures { StepsStand (meaning T.Theory theory.now) }
{}

/// Verdicts are right, some step is always to be had before one, and the steps come to an end: whatever the book, the
/// allowance and the steps.
pub fn histories_stand<T: Theory>(theory: &T)
    ensures runs { HistoriesStand (meaning T.Theory theory.now) }
    ensures states { ReachedStand (meaning T.Theory theory.now) }
{}
