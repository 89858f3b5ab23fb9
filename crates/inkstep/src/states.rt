//! What a history holds after a step, for people.
use crate::refused::Refused;
use history::History;
use rules::{Entry, Reason, Refusal, Step};
use std::alloc::AllocError;
use std::fmt;
use theory::Theory;

/// An entry of the trail, in words.
#[derive(Clone, Copy, PartialEq, Eq, Debug)]
struct Shown(Entry);

impl fmt::Display for Shown {
    fn fmt<W: fmt::Write>(&self, f: &mut fmt::Formatter<W>) -> fmt::Result {
        let literal = self.0.literal;
        match self.0.reason {
            Reason::Decided => write!(f, "{literal} decided"),
            Reason::Clause(c) => write!(f, "{literal} by clause {c}"),
            Reason::Theory => write!(f, "{literal} by the theory"),
        }
    }
}

/// The trail, one line for each level.
fn put_trail<T: Theory>(out: &mut String, history: &History<T>) -> Result<(), AllocError> {
    if history.len() == 0 {
        return writeln!(out, "    the trail is empty");
    }
    let mut last = None;
    for p in 0..history.len() {
        let (Some(entry), Some(level)) = (history.entry(p), history.level_at(p)) else {
            break; // Each position below the length has both.
        };
        let shown = Shown(entry);
        if last == Some(level) {
            write!(out, ", {shown}")?;
        } else {
            if last.is_some() {
                writeln!(out)?;
            }
            write!(out, "    level {level}: {shown}")?;
            last = Some(level);
        }
    }
    writeln!(out)
}

/// The conflict, if one stands.
fn put_conflict<T: Theory>(out: &mut String, history: &History<T>) -> Result<(), AllocError> {
    let Some(conflict) = history.conflicting() else {
        return Ok(());
    };
    write!(out, "    conflict:")?;
    for l in conflict.iter() {
        write!(out, " {l}")?;
    }
    if conflict.is_empty() {
        write!(out, " empty")?;
    }
    writeln!(out)
}

/// What a step changed of the trail and the conflict, or why it was refused.
pub fn put_state<T: Theory>(
    out: &mut String,
    history: &History<T>,
    step: Step,
    answer: Result<u32, Refusal>,
) -> Result<(), AllocError> {
    match (answer, step) {
        (Err(refusal), _) => {
            let refused = Refused::of(history, step, refusal);
            writeln!(out, "    {refused}")
        }
        (_, Step::Decide(_) | Step::Propagate(_, _) | Step::Imply(_) | Step::Jump(_, _)) => {
            put_trail(out, history)
        }
        (_, Step::Conflict(_) | Step::Clash | Step::Resolve) => put_conflict(out, history),
        (_, Step::Forget(_) | Step::Fit(_) | Step::NoFit) => Ok(()),
    }
}
