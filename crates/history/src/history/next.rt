//! What a search asks before a step.
ghost use Rattle.std.specs.Prelude.{◌≡◌, ◌↔◌, IsTrue, option_copied};
ghost use Rattle.rules.specs.States.{asserted};
ghost use Rattle.rules.specs.Moves.{Possible};
ghost use Rattle.rules.specs.Next.{ToBeHad};
ghost use Rattle.history.specs.Seen.{means, shape, state};
ghost use Rattle.history.specs.Next.{Same, Implied, explanation};

use crate::history::History;
use rules::Step;
use theory::{Literal, Theory};

impl<T: Theory> History<T> {
    /// A step that is to be had, if no verdict stands and some allowance is left. The theory is asked only where
    /// nothing
    /// else is left to do.
    pub fn next_step(&mut self) -> Step
        ensures same { Same self.old self.new }
        ensures step { ToBeHad (means self.old) (state self.old) result }
    {
        if let Some(step) = self.table.next_step() {
            return step;
        }
        if self.find_possible() {
            Step::Fit(self.theory.terms())
        } else {
            Step::Clash
        }
    }

    /// Whether some fit makes every literal of the trail hold. The theory is asked only where it is
    /// not known.
    pub fn is_possible(&mut self) -> bool
        ensures same { Same self.old self.new }
        ensures says { IsTrue result ↔ Possible (means self.old) (asserted (state self.old).trail) }
    {
        self.find_possible()
    }

    /// Whether a literal may go on the trail, and follows from it by the theory.
    pub fn is_implied(&mut self, l: Literal) -> bool
        ensures same { Same self.old self.new }
        ensures says { IsTrue result ↔ Implied (means self.old) (state self.old) l }
    {
        self.table.is_fresh(l) && self.find_denied(l).is_some()
    }

    /// The clause by which the entry at a position followed: its reason, or what the theory blamed. There is none if
    /// it was decided, or if no entry is there.
    pub fn explanation(&self, p: usize) -> Option<&[Literal]>
        ensures { option_copied result ≡ explanation self.now p }
    {
        self.table.explanation(p)
    }

    /// Hands the theory back, with the trail as its list.
    pub fn into_theory(self) -> T
        ensures shape { T.shape_of result ≡ shape self }
        ensures list { T.asserted result ≡ asserted (state self).trail }
    {
        self.theory
    }
}
