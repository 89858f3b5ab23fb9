//! What stands of every theory.
ghost use Rattle.theory.specs.Meaning.{Exact};
ghost use Rattle.theory.specs.Members.{meaning};

use crate::theory::Theory;

/// A query answers possible exactly if some fit makes every literal of the list hold.
pub fn answers_stand<T: Theory>(theory: &T)
    ensures { Exact (meaning T.Theory theory.now) }
{}
