//! Who is told each step of a search: counts for people, a word now and then, and the steps for a log.
ghost use Rattle.std.specs.Prelude.{option_map};

use crate::text::FileName;
use rules::Step;
use search::{Recorder, Recording};
use std::alloc::{AllocError, Global};
use std::time::Instant;
use std::{fmt, io};

/// How many steps of each kind there were.
#[derive(Clone, Copy, PartialEq, Eq, Debug)]
pub struct Counts {
    steps: u64,
    decisions: u64,
    propagations: u64,
    implied: u64,
    by_clause: u64,
    by_theory: u64,
    learned: u64,
    forgotten: u64,
}

impl Counts {
    const NONE: Counts = Counts {
        steps: 0,
        decisions: 0,
        propagations: 0,
        implied: 0,
        by_clause: 0,
        by_theory: 0,
        learned: 0,
        forgotten: 0,
    };

    fn count(&mut self, step: Step) {
        add_one(&mut self.steps);
        match step {
            Step::Decide(_) => add_one(&mut self.decisions),
            Step::Propagate(_, _) => add_one(&mut self.propagations),
            Step::Imply(_) => add_one(&mut self.implied),
            Step::Conflict(_) => add_one(&mut self.by_clause),
            Step::Clash => add_one(&mut self.by_theory),
            Step::Jump(_, _) => add_one(&mut self.learned),
            Step::Forget(_) => add_one(&mut self.forgotten),
            Step::Resolve | Step::Fit(_) | Step::NoFit => {}
        }
    }

    fn conflicts(&self) -> u64 {
        self.by_clause.saturating_add(self.by_theory)
    }
}

fn add_one(n: &mut u64) {
    *n = n.saturating_add(1);
}

impl fmt::Display for Counts {
    fn fmt<W: fmt::Write>(&self, f: &mut fmt::Formatter<W>) -> fmt::Result {
        let Counts {
            steps: _,
            decisions,
            propagations,
            implied,
            by_clause,
            by_theory,
            learned,
            forgotten,
        } = self;
        writeln!(f, "decisions {decisions}")?;
        writeln!(f, "propagations {propagations}")?;
        writeln!(f, "implied {implied}")?;
        writeln!(f, "conflicts {by_clause} by clause, {by_theory} by theory")?;
        writeln!(f, "learned {learned}, forgotten {forgotten}")
    }
}

/// Says on standard error how far a search is, about once a second.
#[derive(Drop)]
pub struct Progress<'r> {
    rt: &'r HostRuntime,
    file: &'r str,
    start: Instant,
    said: u64,
}

impl<'r> Progress<'r> {
    /// Progress of the search of a file, if that is wanted.
    pub fn wanted(
        rt: &'r HostRuntime,
        file: &'r str,
        wanted: bool,
    ) -> io::Result<Option<Progress<'r>>> {
        if !wanted {
            return Ok(None);
        }
        Ok(Some(Progress {
            rt,
            file,
            start: Instant::now(rt)?,
            said: 0,
        }))
    }

    /// Where nothing can be said any more, the search goes on.
    fn say(&mut self, counts: &Counts) {
        let Ok(elapsed) = self.start.elapsed(self.rt) else {
            return;
        };
        if elapsed.as_secs() > self.said {
            self.said = elapsed.as_secs();
            let (file, steps, conflicts) = (FileName(self.file), counts.steps, counts.conflicts());
            let _ = eprintln!(self.rt; "{file}: {steps} steps, {conflicts} conflicts");
        }
    }
}

/// How many steps go by before the clock is looked at.
const STEPS_A_LOOK: u64 = 64;

/// Counts the steps of a search, and keeps them for a log or says how far it is where that is wanted.
#[derive(Drop)]
pub struct Watch<'r> {
    pub counts: Counts,
    pub kept: Option<Recording>,
    pub progress: Option<Progress<'r>>,
}

impl<'r> Watch<'r> {
    pub fn new(kept: Option<Recording>, progress: Option<Progress<'r>>) -> Watch<'r> {
        Watch {
            counts: Counts::NONE,
            kept,
            progress,
        }
    }
}

impl<'r> Recorder for Watch<'r> {
    ghost seen = { λ w. option_map (λ kept. kept.steps.items) w.kept };

    fn record(&mut self, step: Step) -> Result<(), AllocError> {
        if let Some(kept) = &mut self.kept {
            kept.record(step)?;
        }
        self.counts.count(step);
        if let Some(progress) = &mut self.progress
            && self.counts.steps % STEPS_A_LOOK == 0
        {
            progress.say(&self.counts);
        }
        Ok(())
    }
}
