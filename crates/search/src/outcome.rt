//! What a search ends with.
ghost use Rattle.std.specs.Prelude.{◌≡◌};
ghost use Rattle.search.specs.Outcomes.{number};

/// What a search ends with: a verdict, or its allowance used up with none.
#[derive(Clone, Copy, PartialEq, Eq, Debug)]
pub enum Outcome {
    Spent,
    Fit,
    NoFit,
}

impl Outcome {
    /// The number by which callers know the outcome.
    pub fn number(self) -> u8
        ensures { result ≡ number self }
    {
        match self {
            Outcome::Spent => 0,
            Outcome::Fit => 1,
            Outcome::NoFit => 2,
        }
    }
}
