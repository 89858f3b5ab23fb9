//! Sample books.
ghost use Rattle.theory.specs.Members.{meaning};
ghost use Rattle.rules.specs.Samples.{Samples};

use theory::Theory;

/// What the sample books come to over the theory at hand, where it answers as they say.
pub fn samples_stand<T: Theory>(theory: &T)
    ensures { Samples (meaning T.Theory theory.now) }
{}
