//! Trials: one literal asserted for a while.
ghost use Rattle.std.specs.Prelude.{◌≡◌};
ghost use Rattle.theory.specs.Calls.{assert_leaves, take_back_leaves};
ghost use Rattle.theory.specs.Trials.{length_before, trial_says, trial_query_says, trial_query_leaves};

use crate::literal::Literal;
use crate::refusal::{Found, Refusal};
use crate::theory::Theory;

/// The duty to take back what a trial asserted. It is not `Drop`: only `close` ends it.
pub struct Trial {
    len: usize,
}

impl Trial {
    /// Asserts one literal, and hands out the duty to close.
    pub fn open<T: Theory>(theory: &mut T, l: Literal) -> Result<Trial, Refusal>
        ensures shape { T.shape_of theory.new ≡ T.shape_of theory.old }
        ensures says { let n = T.claims (T.shape_of theory.old) in
            result ≡ trial_says n (T.asserted theory.old) l }
        ensures list { let n = T.claims (T.shape_of theory.old) in
            T.asserted theory.new ≡ assert_leaves n (T.asserted theory.old) l }
    {
        let len = theory.asserted_len();
        theory.assert(l)?;
        Ok(Trial { len })
    }

    /// Cuts the list to its length before the trial, if it is longer.
    pub fn close<T: Theory>(self, theory: &mut T)
        ensures shape { T.shape_of theory.new ≡ T.shape_of theory.old }
        ensures list { T.asserted theory.new
            ≡ take_back_leaves (T.asserted theory.old) (length_before self) }
    {
        let Trial { len } = self;
        let _ = theory.take_back(len);
    }
}

/// Asks as `query` does, with one more literal on the list, which is gone again afterwards.
pub fn query_with<T: Theory>(theory: &mut T, l: Literal, core: &mut [u16]) -> Result<Found, Refusal>
    ensures shape { T.shape_of theory.new ≡ T.shape_of theory.old }
    ensures list { T.asserted theory.new ≡ T.asserted theory.old }
    ensures says { let s = T.shape_of theory.old in
        result ≡ trial_query_says (T.claims s) (T.answer s) (T.asserted theory.old) l core.old }
    ensures place { let s = T.shape_of theory.old in
        core.new ≡ trial_query_leaves (T.claims s) (T.answer s) (T.asserted theory.old) l core.old }
{
    let trial = Trial::open(theory, l)?;
    let found = theory.query(core);
    trial.close(theory);
    found
}
