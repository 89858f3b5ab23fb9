//! Explaining from the log of merges: which merges join two terms.
ghost use Rattle.std.specs.Prelude.{◌≡◌, ◌<◌, ◌≤◌, length, ◌≢◌};
ghost use Rattle.congruence.specs.Merges.{needed};
ghost use Rattle.equality.specs.Logs.{until, label_at};
ghost use Rattle.equality.specs.Marked.{Joins, Sides, Whole, Grown};

use crate::closure::Closure;
use congruence::Reason;

/// The two ends of a merge between two terms: the one on the near side, and the other.
#[derive(Clone, Copy)]
pub(crate) struct Ends {
    pub(crate) near: u16,
    pub(crate) far: u16,
}

impl Closure<'_> {
    ghost use Rattle.equality.specs.Closures.{records_of, steps_of};

    /// The merge at which two terms came into one class, by halving.
    fn joining(&self, t: u16, u: u16, upto: usize) -> usize
        requires upto { upto ≤ length (steps_of self.now) }
        requires near { t < 256 }
        requires far { u < 256 }
        requires apart { t ≢ u }
        requires together { let num = label_at (steps_of self.now) upto in num t ≡ num u }
        ensures below { result < upto }
        ensures joins { Joins (steps_of self.now) t u result }
    {
        let t = usize::from(t);
        let u = usize::from(u);
        self.rows[1..=upto].partition_point(|row| row[t] != row[u])
    }

    /// The ends of merge number `k`, in the order in which they lie between `t` and `u`.
    fn sides(&self, t: u16, u: u16, k: usize) -> Ends
        requires merge { k < length (steps_of self.now) }
        requires near { t < length (records_of self.now) }
        requires joins { Joins (steps_of self.now) t u k }
        ensures { Sides (records_of self.now) (steps_of self.now) t u k result }
    {
        let s = self.steps[k];
        if self.label(k, t) == self.label(k, s.left) {
            Ends {
                near: s.left,
                far: s.right,
            }
        } else {
            Ends {
                near: s.right,
                far: s.left,
            }
        }
    }

    /// Marks merges that join `t` and `u`, each with those that it rests on.
    pub(crate) fn explain(&self, marks: &mut [bool], t: u16, u: u16, upto: usize)
        requires upto { upto ≤ length (steps_of self.now) }
        requires long { length (steps_of self.now) ≤ length marks.old }
        requires near { t < length (records_of self.now) }
        requires far { u < length (records_of self.now) }
        requires together { let num = label_at (steps_of self.now) upto in num t ≡ num u }
        requires whole { Whole (records_of self.now) (steps_of self.now) marks.old }
        ensures { Grown (records_of self.now) (steps_of self.now) marks.old marks.new
            (λ p. needed (records_of self.now) (until (steps_of self.now) upto) p t u) }
    {
        if t == u {
            return;
        }
        let k = self.joining(t, u, upto);
        let by = self.sides(t, u, k);
        self.explain(marks, t, by.near, k);
        self.explain(marks, by.far, u, k);
        if marks[k] {
            return;
        }
        let s = self.steps[k];
        match s.reason {
            Reason::Asserted(_) => {
                marks[k] = true;
            }
            Reason::Congruence => {
                let x = self.terms.records[usize::from(s.left)];
                let y = self.terms.records[usize::from(s.right)];
                // No plainer as `x.args.iter().zip(&y.args).take(usize::from(x.arity))`.
                for i in 0..usize::from(x.arity) {
                    self.explain(marks, x.args[i], y.args[i], k);
                }
                marks[k] = true;
            }
        }
    }
}
