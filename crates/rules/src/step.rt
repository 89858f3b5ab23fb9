//! The steps that a search may propose, and what a history comes to.
ghost use Rattle.std.specs.Prelude.{◌≡◌};
ghost use Rattle.rules.specs.Kinds.{kind, verdict_number};

use theory::Literal;

/// A step: any numbers may be proposed.
#[derive(Clone, Copy, PartialEq, Eq, Debug)]
pub enum Step {
    /// A literal is assumed.
    Decide(Literal),
    /// A literal follows by a clause.
    Propagate(u16, Literal),
    /// A literal follows by the theory.
    Imply(Literal),
    /// A clause is false.
    Conflict(u16),
    /// The theory finds the trail impossible.
    Clash,
    /// The conflict's latest literal gives way to what it followed from.
    Resolve,
    /// The trail is cut to a level, and the conflict becomes a clause by which one literal follows.
    Jump(u32, u16),
    /// A learned clause is live no more.
    Forget(u16),
    /// The trail is a fit, to be written into a place of so many numbers.
    Fit(usize),
    /// No fit keeps the book.
    NoFit,
}

impl Step {
    /// The number by which callers know the kind of step.
    pub fn kind(self) -> u8
        ensures { result ≡ kind self }
    {
        match self {
            Step::Decide(_) => 16,
            Step::Propagate(_, _) => 17,
            Step::Imply(_) => 18,
            Step::Conflict(_) => 19,
            Step::Clash => 20,
            Step::Resolve => 21,
            Step::Jump(_, _) => 22,
            Step::Forget(_) => 23,
            Step::Fit(_) => 24,
            Step::NoFit => 25,
        }
    }
}

/// What a history may end with.
#[derive(Clone, Copy, PartialEq, Eq, Debug)]
pub enum Verdict {
    Fit,
    NoFit,
}

impl Verdict {
    /// The number of the kind of step that gives the verdict.
    pub fn number(self) -> u8
        ensures { result ≡ verdict_number self }
    {
        match self {
            Verdict::Fit => 24,
            Verdict::NoFit => 25,
        }
    }
}
